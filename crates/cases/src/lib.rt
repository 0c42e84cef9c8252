// Judges cases, one after the other, and writes a verdict to a line. A case is a byte for the call (0 reads the unit, 1 is stack usage, 2 is
// types, 3 is both), the area's length and the unit's length in four bytes each, the lowest first, and the unit. The area is lent full of
// junk. Where it is not as it is due afterwards, the line `area` follows the verdict's, so that a comparison of what is written shows it.
#![tactic(auto)]

ghost use Rattle.std.specs.Prelude.{◌≤◌, ◌<◌, length, IfOk};

use status::{StatusCode, Verdict};
use std::io;
use std::io::{Print, Read};

// No call may leave it, unless it leaves the whole area untouched.
const JUNK: u8 = 7;

// The number in the four bytes at the front, the lowest first.
fn number(b: &[u8]) -> usize
    requires { 4 ≤ length b.now }
    ensures { result < 4294967296 }
{
    u32::from_le_bytes([b[0], b[1], b[2], b[3]]) as usize // usize has no `From` of u32
}

// The byte for the call is matched here alone: an enum of the calls would be made of it by one match, and taken apart by another.
fn verdict_of(call: u8, unit: &[u8], area: &mut [u8]) -> Verdict {
    match call {
        0 => verifier::read_unit(unit, area),
        1 => verifier::verify_stack_usage(unit, area),
        2 => verifier::verify_types(unit, area),
        _ => verifier::verify_both(unit, area),
    }
}

// What each byte of the area is afterwards: an area that is refused is not touched, any other is zeroed.
fn due_in_area(verdict: Verdict) -> u8 {
    match verdict {
        Verdict::Refused(StatusCode::AREA, _) => JUNK,
        _ => 0,
    }
}

// Whether every byte is x: the first is, and each other is the same as the one before it. A comparison of slices goes by many bytes at a time.
fn all(bytes: &[u8], x: u8) -> bool {
    match bytes {
        [] => true,
        [first, rest @ ..] => *first == x && rest == &bytes[..rest.len()],
    }
}

// Judges a unit with an area of junk, and writes the verdict and whether the area is as it is due.
fn judge_in<R: Print>(rt: &R, call: u8, unit: &[u8], area: &mut [u8]) -> io::Result<()> {
    let verdict = verdict_of(call, unit, area);
    println!(rt; "{verdict}")?;
    let due = due_in_area(verdict);
    if !all(area, due) {
        println!(rt; "area")?;
    }
    Ok(())
}

fn judge<R: Print>(rt: &R, call: u8, n: usize, unit: &[u8]) -> io::Result<()>
    requires { n ≤ 65536 }
{
    let mut area = [JUNK; 65536]; // no heap is used
    judge_in(rt, call, unit, &mut area[..n])
}

// Judges the case at the front of the input, and answers how many bytes it took: all where no whole case is left.
fn judge_first<R: Print>(rt: &R, input: &[u8]) -> io::Result<usize>
    requires { 0 < length input.now }
    ensures { IfOk result (λ n. (0 < n) × (n ≤ length input.now)) }
{
    if input.len() < 9 {
        return Ok(input.len());
    }
    let end = 9 + number(&input[5..9]);
    let Some(unit) = input.get(9..end) else {
        return Ok(input.len());
    };
    // One area serves every case, so a longer one counts as the shortest that is too long.
    let n = number(&input[1..5]).min(65536);
    judge(rt, input[0], n, unit)?;
    Ok(end)
}

// Judges each case. How long one is stands in it, so that no `for` takes the loop's place.
pub fn judge_all<R: Print>(rt: &R, input: &[u8]) -> io::Result<()> {
    let mut rest = input;
    while !rest.is_empty() {
        let n = judge_first(rt, rest)?;
        rest = &rest[n..];
    }
    Ok(())
}

// Judges the cases of an input of at most N bytes: an array, since no heap is used, on the stack.
pub fn judge_input<const N: usize, I: Read, R: Print>(input: &mut I, rt: &R) -> io::Result<()>
    requires { N ≤ 262144 }
{
    let mut bytes = [0u8; N];
    let n = standard_input::read_full(input, &mut bytes)?;
    judge_all(rt, &bytes[..n])
}
