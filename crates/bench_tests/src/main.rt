// Reads many texts, and prints the line of counts or of the refusal for each; the file stdout has what the rules say.
#![tactic(auto)]

mod behind;
mod long;
mod told;
mod written;

use std::io;

fn main(rt: HostRuntime) -> io::Result<()> {
    written::tell_written(&rt)?;
    long::tell_limits(&rt)?;
    long::tell_lengths(&rt)
}
