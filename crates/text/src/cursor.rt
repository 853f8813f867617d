// A window on a line, which hands out what stands in it: its names, with their places in the text, and its signs.
ghost use Rattle.std.specs.Prelude.{◌≡◌, ℕ, ◌≤◌, length, slice_range};
ghost use Rattle.grammar.specs.Grammar.{is_blank_byte, is_name_character};
ghost use Rattle.grammar.specs.Scan.{scan, none, listing};
ghost use Rattle.names.specs.Places.{Stands};

use crate::ends::end_of;
use names::name::Name;

// A name, or a byte that is no part of one and no blank.
#[derive(Clone, Copy, Debug, PartialEq, Eq)]
pub enum Token<'a> {
    Name(Name<'a>),
    Sign(u8),
}

// The text up to the line's end, and how far it is read.
#[derive(Clone, Copy, Debug, PartialEq, Eq)]
pub struct Cursor<'a> {
    text: &'a [u8],
    at: usize,
    ghost within: { at ≤ length text.now },
}

// The names that stand in a window, whatever signs stand between them.
#[derive(Clone, Copy, Debug, PartialEq, Eq)]
pub struct Names<'a>(Cursor<'a>);

fn is_blank(b: u8) -> bool
    ensures { result ≡ is_blank_byte b }
{
    b == b' ' || b == b'\t'
}

fn is_name_byte(b: u8) -> bool
    ensures { result ≡ is_name_character b }
{
    b.is_ascii_alphanumeric() || matches!(b, b'_' | b'.' | b'[' | b']')
}

impl<'a> Token<'a> {
    ghost use Rattle.text.specs.Tokens.{name_in};

    fn name(self) -> Option<Name<'a>>
        ensures { result ≡ name_in self.entry }
    {
        match self {
            Token::Name(name) => Some(name),
            Token::Sign(_) => None,
        }
    }
}

impl<'a> Cursor<'a> {
    ghost use Rattle.text.specs.Tokens.{rest, names_left, names_of, GivesPair, GivesName};

    // The window on the line of a text from a place up to its end. What stands in it stands in the text.
    pub(crate) fn line(text: &'a [u8], at: usize, end: usize) -> Cursor<'a>
        requires { (at ≤ end) × (end ≤ length text.now) }
        ensures rest { rest result ≡ slice_range text.now at end }
        ensures places { (n : Name) → Stands result.text.now n → Stands text.now n }
    {
        Cursor {
            text: &text[0..end],
            at,
        }
    }

    // Whether no name and no sign is left.
    pub(crate) fn ended(mut self) -> bool
        ensures { result ≡ none (scan (rest self.entry)) }
    {
        self.next().is_none()
    }

    // A name and the sign behind it, if these stand next.
    pub(crate) fn pair(&mut self) -> Option<(Name<'a>, u8)>
        ensures { GivesPair self.old result self.new }
    {
        let Token::Name(name) = self.next()? else {
            return None;
        };
        let Token::Sign(sign) = self.next()? else {
            return None;
        };
        Some((name, sign))
    }

    // Whether names with commas between them and a closing bracket stand next, and nothing behind them.
    pub(crate) fn listed(mut self) -> bool
        ensures { result ≡ listing (scan (rest self.entry)) }
    {
        while let Some((_, sign)) = self.pair() {
            if sign != b',' {
                return sign == b')' && self.ended();
            }
        }
        false
    }

    // The next name, whatever signs stand before it.
    pub fn next_name(&mut self) -> Option<Name<'a>>
        ensures { GivesName self.old result self.new }
    {
        self.find_map(Token::name)
    }

    // The names that are left, from the same text.
    pub fn names(self) -> Names<'a>
        ensures left { names_of result ≡ names_left self.entry }
        ensures text { result.0.text ≡ self.entry.text }
    {
        Names(self)
    }
}

impl<'a> Iterator for Cursor<'a> {
    type Item = Token<'a>;

    ghost use Rattle.std.specs.Prelude.{◌-◌, length};
    ghost use Rattle.std.specs.Iterator.{at_most};
    ghost use Rattle.text.specs.Tokens.{Gives};

    ghost next_gives = { Gives };

    ghost remaining = { λ c. at_most (length c.text.now - c.at) };

    fn next(&mut self) -> Option<Token<'a>> {
        let text = self.text;
        let start = end_of(text, self.at, is_blank);
        if start >= text.len() || text[start] == b'#' {
            return None;
        }
        let end = end_of(text, start, is_name_byte);
        if end == start {
            self.at = start + 1;
            return Some(Token::Sign(text[start]));
        }
        self.at = end;
        Some(Token::Name(Name {
            bytes: &text[start..end],
            at: start,
        }))
    }
}

impl<'a> Iterator for Names<'a> {
    type Item = Name<'a>;

    ghost use Rattle.std.specs.Prelude.{◌-◌, length};
    ghost use Rattle.std.specs.Iterator.{at_most};
    ghost use Rattle.text.specs.Tokens.{GivesNextName};

    ghost next_gives = { GivesNextName };

    ghost remaining = { λ s. at_most (length s.0.text.now - s.0.at) };

    fn next(&mut self) -> Option<Name<'a>> {
        self.0.next_name()
    }
}
