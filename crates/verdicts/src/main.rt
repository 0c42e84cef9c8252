// Judges the cases of its standard input, which are those of the file `cases` in the form that the crate `cases` reads, and writes a verdict
// to a line. What it must write stands in that file too, from document 01 and from the Rust, never from this program.
#![tactic(auto)]

use std::io;

fn main(rt: HostRuntime) -> io::Result<()> {
    cases::judge_input::<65536, _, _>(&mut rt.reader(), &rt)
}
