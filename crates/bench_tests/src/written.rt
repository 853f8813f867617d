// Texts that are written out on standard input, a line for each: its label, `|`, and the text with escapes.
ghost use Rattle.std.specs.Prelude.{◌≡◌, ◌<◌, ◌≤◌, length, IfSome};

use crate::told::tell_text;
use std::alloc::AllocError;
use std::io;
use std::io::Read;

// No text that is written out is longer.
const LONGEST: usize = 128;

// What a hexadecimal digit stands for; 0 for any other letter, a capital too, which no text has there.
fn hex(digit: u8) -> u8
    ensures small { result < 16 }
    ensures capital { 65 ≤ digit → digit ≤ 90 → result ≡ 0 }
{
    if digit.is_ascii_uppercase() {
        return 0;
    }
    char::from(digit).to_digit(16).unwrap_or(0) as u8
}

// The byte that a letter behind a backslash means.
fn escaped(letter: u8) -> u8 {
    match letter {
        b'n' => b'\n',
        b'r' => b'\r',
        b't' => b'\t',
        _ => letter,
    }
}

// The first byte that is meant, and what is written behind it.
fn first_meant(written: &[u8]) -> Option<(u8, &[u8])>
    ensures { IfSome result (λ meant. length meant.1.now < length written.now) }
{
    match written {
        [b'\\', b'x', high, low, behind @ ..] => Some((hex(*high) * 16 + hex(*low), behind)),
        [b'\\', letter, behind @ ..] => Some((escaped(*letter), behind)),
        [byte, behind @ ..] => Some((*byte, behind)),
        [] => None,
    }
}

fn push_meant(text: &mut Vec<u8>, written: &[u8]) -> Result<(), AllocError> {
    let mut rest = written;
    while let Some((byte, behind)) = first_meant(rest) {
        text.push(byte)?;
        rest = behind;
    }
    Ok(())
}

pub(crate) fn tell_written(rt: &HostRuntime) -> io::Result<()> {
    let mut input = String::new(rt.alloc());
    rt.stdin().read_to_string(&mut input)?;
    let mut text = Vec::with_capacity(rt.alloc(), LONGEST)?;
    for line in input.lines() {
        let (label, written) = line.split_once('|').unwrap_or((line, ""));
        text.clear();
        push_meant(&mut text, written.as_bytes())?;
        tell_text(rt, label, text.as_slice())?;
    }
    Ok(())
}
