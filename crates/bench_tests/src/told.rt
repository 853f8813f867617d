// What came of a text, in a line. Errors are those of `io`: `anyhow` would print another text where a read or a write fails.
ghost use Rattle.std.specs.Prelude.{◌≡◌};

use bench::declarations::Declarations;
use model::counts::Counts;
use model::refusal::Refusal;
use report::lines::{counts_line, refusal_line};
use std::alloc::{AllocError, Global};
use std::io;
use std::io::Write;

// No line about these texts is longer. The library writes into memory that it is lent, so a line has its length beside it.
const LINE: usize = 64;

// How much a text declares, or what is wrong with it; the outer error says that memory ran out.
fn judge(heap: Global, text: &[u8]) -> Result<Result<Counts, Refusal>, AllocError> {
    let mut declarations = Declarations::new(heap)?;
    let read = declarations.read(text);
    Ok(read.map(|()| declarations.counts()).map_err(Refusal::from))
}

// Prints the label of a text and what came of it.
pub(crate) fn tell_text(rt: &HostRuntime, label: &str, text: &[u8]) -> io::Result<()> {
    let mut line = [0u8; LINE];
    let length = match judge(rt.alloc(), text)? {
        Ok(counts) => counts_line(&mut line, counts),
        Err(refusal) => refusal_line(&mut line, refusal),
    }
    .map_err(|_| io::Error::from(io::ErrorKind::WriteZero))?;
    let mut out = rt.stdout();
    write!(out, "{label}: ")?;
    out.write_all(&line[..length])?;
    Ok(())
}

// Tells of a long text with each of the cases behind it, which are taken away again.
// One buffer for all cases: a copy of the text for each takes a quarter more memory.
pub(crate) fn tell_behind(
    rt: &HostRuntime,
    text: &mut Vec<u8>,
    cases: &[(&str, &str)],
) -> io::Result<()>
    ensures { text.new.items ≡ text.old.items }
{
    let length = text.len();
    for (label, behind) in cases {
        text.extend_from_slice(behind.as_bytes())?;
        let told = tell_text(rt, label, text.as_slice());
        text.truncate(length);
        told?;
    }
    Ok(())
}
