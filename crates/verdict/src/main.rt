// Document 01's program: reads a unit from standard input, lends 16,384 bytes, runs both passes and prints the verdict. It has room for one
// byte more than a unit may have, so that of a longer input enough is read to be refused as too long, and no part of it is judged. The arrays are
// fixed, since no heap is used.
#![tactic(auto)]

use std::io;

fn main(rt: HostRuntime) -> io::Result<()> {
    let mut input = [0u8; 32769];
    let n = standard_input::read_full(&mut rt.reader(), &mut input)?;
    let mut area = [0u8; 16384];
    let verdict = verifier::verify_both(&input[..n], &mut area);
    println!(rt; "{verdict}")
}
