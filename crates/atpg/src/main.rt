// Reads .bench text on standard input and says in one line how large it is, or what is wrong with it.
#![tactic(auto)]

use model::counts::Counts;
use model::refusal::Refusal;
use netlist::limits::{CELLS, LINKS};
use netlist::whole::Netlist;
use report::lines::{counts_line, refusal_line};
use std::alloc::{AllocError, Global};
use std::io;
use std::io::{Read, Write};
use std::process::ExitCode;

// One byte more than a text may have tells that it has too many.
const MOST: u64 = 65_537;

// No line is longer. The library writes into memory that it is lent, so a line has its length beside it.
const LINE: usize = 120;

fn read_input(rt: &HostRuntime) -> io::Result<Vec<u8>> {
    let mut text = Vec::new(rt.alloc());
    rt.stdin().take(MOST).read_to_end(&mut text)?;
    Ok(text)
}

// How large the netlist of a text is, or what is wrong with the text; the outer error says that memory ran out.
fn judge(heap: Global, text: &[u8]) -> Result<Result<Counts, Refusal>, AllocError> {
    let mut cells = vec![in heap; 0u16; CELLS]?;
    let mut links = vec![in heap; 0u16; LINKS]?;
    let mut netlist = Netlist::empty(heap);
    let loaded = netlist.load(heap, text, cells.as_mut_slice(), links.as_mut_slice());
    Ok(loaded.map(|()| netlist.counts()).map_err(Refusal::from))
}

// The exit code says whether the text was accepted.
fn main(rt: HostRuntime) -> anyhow::Result<ExitCode> {
    let text = read_input(&rt)?;
    let mut line = [0u8; LINE];
    let (length, code) = match judge(rt.alloc(), text.as_slice())? {
        Ok(counts) => (counts_line(&mut line, counts)?, ExitCode::SUCCESS),
        Err(refusal) => (refusal_line(&mut line, refusal)?, ExitCode::FAILURE),
    };
    rt.stdout().write_all(&line[..length])?;
    Ok(code)
}
