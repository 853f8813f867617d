// The statement that a line has, as it is written.
ghost use Rattle.std.specs.Prelude.{◌≡◌, ℕ, false, List};
ghost use Rattle.grammar.specs.Rules.{any_long};
ghost use Rattle.grammar.specs.Scan.{scan, none, keyworded, port, defined, parse};
ghost use Rattle.names.specs.Places.{Stands};
ghost use Rattle.text.specs.Tokens.{rest, names_left};
ghost use Rattle.text.specs.Shapes.{meant, Placed, TextReads};

use crate::cursor::Cursor;
use crate::fault::TextFault;
use crate::reader::Line;
use names::name::Name;

const LONGEST_NAME: usize = 16;

// A gate has its net, the word for its kind, and a window on its operands.
// How a line is written; a `Statement` is what it is. One type would put a kind parameter into each clause of both.
#[derive(Clone, Copy, Debug, PartialEq, Eq)]
pub enum Shape<'a> {
    Input(Name<'a>),
    Output(Name<'a>),
    Gate(Name<'a>, Name<'a>, Cursor<'a>),
}

fn keyword<'a>(word: &[u8], name: Name<'a>) -> Option<Shape<'a>>
    ensures says { meant result ≡ keyworded word.now name.entry.bytes.now }
    ensures placed { (text : List ℕ) → Stands text name.entry → Placed text result }
{
    match word {
        b"INPUT" => Some(Shape::Input(name)),
        b"OUTPUT" => Some(Shape::Output(name)),
        _ => None,
    }
}

// INPUT(name) and OUTPUT(name), behind the opening bracket.
fn read_port<'a>(word: Name<'a>, mut cursor: Cursor<'a>) -> Option<Shape<'a>>
    ensures says { meant result ≡ port word.entry.bytes.now (scan (rest cursor.entry)) }
    ensures placed { Placed cursor.entry.text.now result }
{
    let (name, sign) = cursor.pair()?;
    if sign == b')' && cursor.ended() {
        keyword(word.bytes, name)
    } else {
        None
    }
}

// name = KIND(name, ..), behind the sign of equality.
fn read_gate<'a>(name: Name<'a>, mut cursor: Cursor<'a>) -> Option<Shape<'a>>
    ensures says { meant result ≡ defined name.entry.bytes.now (scan (rest cursor.entry)) }
    ensures placed { Stands cursor.entry.text.now name.entry → Placed cursor.entry.text.now result }
{
    let (kind, sign) = cursor.pair()?;
    if sign == b'(' && cursor.listed() {
        Some(Shape::Gate(name, kind, cursor))
    } else {
        None
    }
}

// The statement that a line has, with names of any length, or none where it has none.
fn read_shape<'a>(mut cursor: Cursor<'a>) -> Option<Shape<'a>>
    requires { none (scan (rest cursor)) ≡ false }
    ensures says { meant result ≡ parse (scan (rest cursor.entry)) }
    ensures placed { Placed cursor.entry.text.now result }
{
    let (first, sign) = cursor.pair()?;
    if sign == b'(' {
        read_port(first, cursor)
    } else if sign == b'=' {
        read_gate(first, cursor)
    } else {
        None
    }
}

fn has_long_name(cursor: Cursor<'_>) -> bool
    ensures { result ≡ any_long (names_left cursor.entry) }
{
    cursor.names().any(|name| name.bytes.len() > LONGEST_NAME)
}

// The statement that a line has, with names of at most 16 bytes, or none where it says nothing.
pub fn read_text<'a>(line: Line<'a>) -> Result<Option<Shape<'a>>, TextFault>
    ensures { TextReads line.entry result }
{
    if line.window.ended() {
        return Ok(None);
    }
    let Some(shape) = read_shape(line.window) else {
        return Err(TextFault::NoStatement(line.number));
    };
    if has_long_name(line.window) {
        return Err(TextFault::LongName(line.number));
    }
    Ok(Some(shape))
}
