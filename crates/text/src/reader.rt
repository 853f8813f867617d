// A window on the text: the bytes, how far they are read, and how many lines that is.
ghost use Rattle.std.specs.Prelude.{◌≡◌, ℕ, ◌+◌, ◌-◌, ◌<◌, ◌≤◌, length, ◌≢◌, slice_index, slice_range};
ghost use Rattle.grammar.specs.Lines.{trimmed};

use crate::cursor::Cursor;
use crate::ends::end_of;

#[derive(Clone, Copy, Debug, PartialEq, Eq)]
pub struct Reader<'a> {
    text: &'a [u8],
    at: usize,
    line: usize,
    ghost within: { at ≤ length text.now },
    ghost counted: { line ≤ at },
}

// A line by its number, from 1 on, and a window on it.
#[derive(Clone, Copy, Debug, PartialEq, Eq)]
pub struct Line<'a> {
    pub number: usize,
    pub window: Cursor<'a>,
}

// The end of a line without the one byte 13 that may stand directly before it.
fn trimmed_end(text: &[u8], at: usize, end: usize) -> usize
    requires { (at ≤ end) × (end ≤ length text.now) }
    ensures within { (at ≤ result) × (result ≤ end) }
    ensures trims { slice_range text.now at result ≡ trimmed (slice_range text.now at end) }
{
    if at < end && text[end - 1] == b'\r' {
        end - 1
    } else {
        end
    }
}

impl<'a> Reader<'a> {
    ghost use Rattle.text.specs.Windows.{Starts};

    // The window on a text, of which nothing is read.
    pub fn new(text: &'a [u8]) -> Reader<'a>
        ensures { Starts text.now result }
    {
        Reader {
            text,
            at: 0,
            line: 0,
        }
    }
}

// The lines, each without what ends it.
impl<'a> Iterator for Reader<'a> {
    type Item = Line<'a>;

    ghost use Rattle.std.specs.Prelude.{◌-◌, length};
    ghost use Rattle.std.specs.Iterator.{at_most};
    ghost use Rattle.text.specs.Windows.{GivesLine};

    ghost next_gives = { GivesLine };

    ghost remaining = { λ r. at_most (length r.text.now - r.at) };

    fn next(&mut self) -> Option<Line<'a>> {
        let text = self.text;
        let at = self.at;
        if at >= text.len() {
            return None;
        }
        let end = end_of(text, at, |b| b != b'\n');
        let window = Cursor::line(text, at, trimmed_end(text, at, end));
        self.at = text.len().min(end + 1);
        self.line += 1;
        Some(Line {
            number: self.line,
            window,
        })
    }
}
