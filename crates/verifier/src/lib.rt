// The public calls of document 01: read a unit, stack usage, types, and both. They ask nothing of their caller. An area that is too long is
// refused before the unit is looked at; else the call leaves zeros in the whole area. That it is short enough is asked below of each function that
// writes it, and not kept by a struct: of what is behind a `&mut` a ghost field says nothing.
#![tactic(auto)]

ghost use Rattle.std.specs.Prelude.{◌≡◌, ◌≤◌, length};
ghost use Rattle.definitions.specs.Reader.{read_unit};
ghost use Rattle.definitions.specs.Verify.{stack_usage, type_safety, both_passes};
ghost use Rattle.definitions.specs.Verdicts.{after_reading, reading, read_verdict, stack_usage_verdict, types_verdict, both_verdict, area_after};
ghost use Rattle.status.specs.declared.Verdict.TheVariants.{Accepted};
ghost use Rattle.unit_tables.specs.Compiled.{compiled};
ghost use Rattle.verifier.specs.Judges.{Judge};

use record_reader::ReadError;
use status::{Position, StatusCode, Verdict};
use unit_tables::UnitView;

// What a call runs over a unit that was read.
trait Passes {
    // the definitions' verdict on the unit, by the area's length
    ghost judge: { Judge };

    fn run(unit: &UnitView<'_, '_>, area: &mut [u8]) -> Verdict
        requires { length area.old ≤ 65535 }
        ensures { result ≡ judge (length area.old) (compiled unit.now) };
}

// A unit that is read is accepted.
struct NoPass;

impl Passes for NoPass {
    ghost judge = { λ area u. Accepted };

    fn run(_unit: &UnitView<'_, '_>, _area: &mut [u8]) -> Verdict {
        Verdict::Accepted
    }
}

// Stack usage alone.
struct StackUsage;

impl Passes for StackUsage {
    ghost judge = { λ area u. stack_usage u };

    fn run(unit: &UnitView<'_, '_>, _area: &mut [u8]) -> Verdict {
        stack_usage_verifier::verify(unit)
    }
}

// Types alone.
struct Types;

impl Passes for Types {
    ghost judge = { λ area u. type_safety u area };

    fn run(unit: &UnitView<'_, '_>, area: &mut [u8]) -> Verdict {
        type_safety::verify(area, unit).verdict
    }
}

// Stack usage, and then types where it accepts. Types is walked first: where that walk is clean, stack usage accepts too, which is proved
// (theorems, proofs/Clean), and need not be run. Where it is not, stack usage decides whether the verdict of types counts.
struct Both;

impl Passes for Both {
    ghost judge = { λ area u. both_passes u area };

    fn run(unit: &UnitView<'_, '_>, area: &mut [u8]) -> Verdict {
        let types = type_safety::verify(area, unit);
        if types.clean {
            return Verdict::Accepted;
        }
        match stack_usage_verifier::verify(unit) {
            Verdict::Accepted => types.verdict,
            refused => refused,
        }
    }
}

// Reads a unit and judges it, with an index of N entries, one for each byte or more: an array, since no heap is used. That the byte's number fits is
// proved.
fn judge_in<P: Passes, const N: usize>(s: &[u8], area: &mut [u8]) -> Verdict
    requires area_len_bound { length area.old ≤ 65535 }
    requires index_len_bound { length s.now ≤ 32768 → length s.now ≤ N }
    requires n_bound { N ≤ 32768 }
    ensures { result ≡ after_reading (read_unit s.now) (P.judge (length area.old)) }
{
    let mut index = [0u16; N];
    match unit::read(s, &mut index) {
        Err(ReadError { status, at }) => Verdict::Refused(status, Position::Byte(at as u16)),
        Ok(view) => {
            let unit = UnitView {
                bytes: s,
                index: &index,
                view,
            };
            P::run(&unit, area)
        }
    }
}

// Reads a unit and judges it. An index is zeroed before it is filled, so a unit takes the shortest of four that has an entry for each byte.
fn judge<P: Passes>(s: &[u8], area: &mut [u8]) -> Verdict
    requires { length area.old ≤ 65535 }
    ensures { result ≡ after_reading (read_unit s.now) (P.judge (length area.old)) }
{
    match s.len() {
        0..=256 => judge_in::<P, 256>(s, area),
        257..=1024 => judge_in::<P, 1024>(s, area),
        1025..=4096 => judge_in::<P, 4096>(s, area),
        _ => judge_in::<P, 32768>(s, area),
    }
}

// What every public call does: AREA first, then the unit is read and judged. The area is zeros afterwards, or untouched if it was refused.
#[tactic(auto, using(crate::proofs::Calls::called))]
fn call<P: Passes>(s: &[u8], area: &mut [u8]) -> Verdict
    ensures value { result ≡ reading s.now (length area.old) (P.judge (length area.old)) }
    ensures area_after { area.new ≡ area_after area.old }
{
    if 65535 < area.len() {
        return Verdict::Refused(StatusCode::AREA, Position::Byte(0));
    }
    let verdict = judge::<P>(s, area);
    area.fill(0);
    verdict
}

// Document 01's "read a unit".
#[tactic(auto, unfolding(definitions::specs::Verdicts::read_verdict))]
pub fn read_unit(s: &[u8], area: &mut [u8]) -> Verdict
    ensures value { result ≡ read_verdict s.now (length area.old) }
    ensures area_after { area.new ≡ area_after area.old }
{
    call::<NoPass>(s, area)
}

// Document 01's "stack usage".
#[tactic(auto, unfolding(definitions::specs::Verdicts::stack_usage_verdict))]
pub fn verify_stack_usage(s: &[u8], area: &mut [u8]) -> Verdict
    ensures value { result ≡ stack_usage_verdict s.now (length area.old) }
    ensures area_after { area.new ≡ area_after area.old }
{
    call::<StackUsage>(s, area)
}

// Document 01's "types".
#[tactic(auto, unfolding(definitions::specs::Verdicts::types_verdict))]
pub fn verify_types(s: &[u8], area: &mut [u8]) -> Verdict
    ensures value { result ≡ types_verdict s.now (length area.old) }
    ensures area_after { area.new ≡ area_after area.old }
{
    call::<Types>(s, area)
}

// Document 01's "both": stack usage first.
#[tactic(auto, unfolding(definitions::specs::Verdicts::both_verdict))]
pub fn verify_both(s: &[u8], area: &mut [u8]) -> Verdict
    ensures value { result ≡ both_verdict s.now (length area.old) }
    ensures area_after { area.new ≡ area_after area.old }
{
    call::<Both>(s, area)
}
