// VecPack and VecUnpack of type_safety.rs: as many pops or pushes as the instruction says. VecPack looks the element type up before its pops,
// VecUnpack after its pop.
#![tactic(auto, using(type_stack::specs::Stepping::pops, operand_steps::specs::Operands::operands, step_views::specs::Looked::types, step_views::specs::Looked::looks), unfolding(definitions::specs::TypeSafety::vec_pack, definitions::specs::TypeSafety::vec_unpack))]

ghost use Rattle.std.specs.Prelude.{◌≤◌, length};
ghost use Rattle.definitions.specs.Machine.{pop_n};
ghost use Rattle.definitions.specs.TypeSafety as step;
ghost use Rattle.type_stack.specs.Held.{Stacked};
ghost use Rattle.type_stack.specs.Stepping.{StepsTo};
ghost use Rattle.unit_tables.specs.Compiled.{compiled};
ghost use Rattle.vector_pack_steps.specs.Many.{PushesMany};

use file_format::SignatureIndex;
use numbers::wide64;
use signature_token::VECTOR;
use status::{PartialVMResult, StatusCode};
use unit_tables::UnitView;

// Pops num types. It ends with the stack, however large num is.
#[tactic(auto, using(crate::specs::Many::popping))]
fn pop_many(area: &[u8], weight: usize, num: u64) -> PartialVMResult<usize>
    requires { Stacked area.now weight }
    ensures { StepsTo (pop_n num) area.now weight area.now result }
{
    let mut below = weight;
    for _i in 0..num {
        below = type_stack::pop(area, below)?.start;
    }
    Ok(below)
}

// Pushes the type of these bytes num times. That all of them fit is tested at once, and before any is written. Not inlined: in the function of all steps
// its counts would stand in memory, and each turn would wait for them.
#[inline(never)]
#[tactic(auto, using(crate::specs::Many::writing))]
fn push_many(area: &mut [u8], weight: usize, bytes: &[u8], num: u64) -> PartialVMResult<usize>
    requires stacked { Stacked area.old weight }
    requires short { length bytes.now ≤ 65535 }
    ensures { PushesMany num bytes.now area.old weight area.new result }
{
    let fit = wide64((area.len() - weight) / (bytes.len() + 2));
    if fit < num {
        return Err(StatusCode::NO_ROOM);
    }
    let mut end = weight;
    for _i in 0..num {
        end = copied_pushes::write_part(area, end, bytes);
    }
    Ok(end)
}

// `VecPack`: it pops without comparing.
pub fn vec_pack(
    area: &mut [u8],
    weight: usize,
    unit: &UnitView<'_, '_>,
    idx: SignatureIndex,
    num: u64,
) -> PartialVMResult<usize>
    requires { Stacked area.old weight }
    ensures { StepsTo (step.vec_pack (compiled unit.now) idx.0 num) area.old weight area.new result }
{
    let element = unit_views::element_type_at(unit, idx)?;
    let below = pop_many(area, weight, num)?;
    copied_pushes::push_wrapped(area, below, VECTOR, element.encoded())
}

// `VecUnpack`.
pub fn vec_unpack(
    area: &mut [u8],
    weight: usize,
    unit: &UnitView<'_, '_>,
    idx: SignatureIndex,
    num: u64,
) -> PartialVMResult<usize>
    requires { Stacked area.old weight }
    ensures { StepsTo (step.vec_unpack (compiled unit.now) idx.0 num) area.old weight area.new result }
{
    let top = type_stack::pop(area, weight)?;
    let declared = unit_views::element_type_at(unit, idx)?;
    if vector_elements::vector_is(area, top, declared) {
        return push_many(area, top.start, declared.encoded(), num);
    }
    Err(StatusCode::TYPE_MISMATCH)
}
