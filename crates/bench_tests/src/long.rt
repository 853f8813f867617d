// Texts at the limits of counts and of bytes.
use crate::behind;
use crate::told::tell_behind;
use std::io;

const NOT: &str = "=NOT(a)\n";

const AND_OF_16: &str = "=AND(a,a,a,a,a,a,a,a,a,a,a,a,a,a,a,a)\n";

// A text of ports and then gates, so many lines in all, each with its number in four digits, and each of the cases behind it.
fn tell_lines(
    rt: &HostRuntime,
    port: &str,
    ports: u16,
    gate: &str,
    lines: u16,
    cases: &[(&str, &str)],
) -> io::Result<()> {
    let mut text = String::new(rt.alloc());
    for n in 0..ports {
        text.push_str(format!(in rt.alloc(); "{port}({n:04})\n")?.as_str())?;
    }
    for n in ports..lines {
        text.push_str(format!(in rt.alloc(); "{n:04}{gate}")?.as_str())?;
    }
    tell_behind(rt, &mut text.into_bytes(), cases)
}

// The texts at the limits of inputs, outputs, nets and pins.
pub(crate) fn tell_limits(rt: &HostRuntime) -> io::Result<()> {
    tell_lines(rt, "INPUT", 64, "", 64, &behind::INPUTS)?;
    tell_lines(rt, "OUTPUT", 64, "", 64, &behind::OUTPUTS)?;
    tell_lines(rt, "INPUT", 64, NOT, 2048, &behind::NETS)?;
    tell_lines(rt, "", 0, NOT, 2048, &behind::GATES)?;
    tell_lines(rt, "", 0, AND_OF_16, 511, &behind::PINS)
}

// A text of one piece and another many times, and each of the cases behind it.
fn tell_long(
    rt: &HostRuntime,
    start: &str,
    piece: &str,
    times: usize,
    cases: &[(&str, &str)],
) -> io::Result<()> {
    let mut text = piece.repeat(rt.alloc(), times)?;
    text.insert_str(0, start)?;
    tell_behind(rt, &mut text.into_bytes(), cases)
}

// The texts at the limit of bytes, and with the longest lines.
pub(crate) fn tell_lengths(rt: &HostRuntime) -> io::Result<()> {
    tell_long(rt, "INPUT(a)\n#", "x", 65525, &behind::COMMENT)?;
    tell_long(rt, "", "\n", 65535, &behind::NEWLINES)?;
    tell_long(rt, ")", "\n", 65535, &behind::FAULT)?;
    tell_long(rt, "INPUT(", "a", 65529, &behind::NAME)?;
    tell_long(rt, "y=AND(a", ",a", 32764, &behind::LIST)
}
