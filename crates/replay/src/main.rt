// Judges a recorded sample of cases and writes a verdict to a line; what it must write is what the oracle answered to them. README.md
// beside `src` says how the sample was made and what it covers.
#![tactic(auto)]

use std::io;

fn main(rt: HostRuntime) -> io::Result<()> {
    cases::judge_input::<262144, _, _>(&mut rt.reader(), &rt)
}
