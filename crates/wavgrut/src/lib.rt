// The C interface: document 01's four public calls under C's names, for include/wavgrut.h. Each answers the verdict as one number, and like
// the calls it stands for it asks nothing of the unit and the area that it is lent.
#![tactic(auto)]

ghost use Rattle.std.specs.Prelude.{◌≡◌, length};
ghost use Rattle.definitions.specs.Verdicts.{read_verdict, stack_usage_verdict, types_verdict, both_verdict, area_after};
ghost use Rattle.wavgrut.specs.Packed.{packed};

use status::Verdict;

// A verdict as one number: document 01's number in bits 0 to 7, the letter in bits 8 to 15, the place in bits 16 to 31. An impl of
// From would have to stand in crate status, which has no part of the C interface.
fn pack(verdict: Verdict) -> u64
    ensures { result ≡ packed verdict }
{
    let number = u64::from(verdict.number());
    let letter = u64::from(verdict.letter());
    let place = u64::from(verdict.place());
    number + 256 * letter + 65536 * place
}

// Document 01's "read a unit".
#[unsafe(no_mangle)]
pub extern "C" fn wavgrut_read(unit: &[u8], area: &mut [u8]) -> u64
    ensures value { result ≡ packed (read_verdict unit.now (length area.old)) }
    ensures area_after { area.new ≡ area_after area.old }
{
    pack(verifier::read_unit(unit, area))
}

// Document 01's "stack usage".
#[unsafe(no_mangle)]
pub extern "C" fn wavgrut_stack_usage(unit: &[u8], area: &mut [u8]) -> u64
    ensures value { result ≡ packed (stack_usage_verdict unit.now (length area.old)) }
    ensures area_after { area.new ≡ area_after area.old }
{
    pack(verifier::verify_stack_usage(unit, area))
}

// Document 01's "types".
#[unsafe(no_mangle)]
pub extern "C" fn wavgrut_types(unit: &[u8], area: &mut [u8]) -> u64
    ensures value { result ≡ packed (types_verdict unit.now (length area.old)) }
    ensures area_after { area.new ≡ area_after area.old }
{
    pack(verifier::verify_types(unit, area))
}

// Document 01's "both": stack usage first.
#[unsafe(no_mangle)]
pub extern "C" fn wavgrut_both(unit: &[u8], area: &mut [u8]) -> u64
    ensures value { result ≡ packed (both_verdict unit.now (length area.old)) }
    ensures area_after { area.new ≡ area_after area.old }
{
    pack(verifier::verify_both(unit, area))
}
