// The steps of type_safety.rs on a vector behind a reference: VecLen, VecPushBack, VecPopBack and VecSwap. The element type that such an instruction
// names is looked up where the Rust looks it up: after the pops, in VecSwap after its indexes too. A step that only reads takes the area as `&[u8]`.
#![tactic(auto, using(type_stack::specs::Stepping::pops, operand_steps::specs::Operands::operands), unfolding(definitions::specs::TypeSafety::vec_len, definitions::specs::TypeSafety::vec_push_back, definitions::specs::TypeSafety::vec_pop_back, definitions::specs::TypeSafety::vec_swap))]

ghost use Rattle.std.specs.Prelude.{◌≡◌, IfOk};
ghost use Rattle.definitions.specs.TypeSafety as step;
ghost use Rattle.signature_token.specs.Same.{Spans};
ghost use Rattle.type_stack.specs.Held.{Stacked};
ghost use Rattle.type_stack.specs.Stepping.{StepsTo};
ghost use Rattle.unit_tables.specs.Compiled.{compiled};
ghost use Rattle.vector_steps.specs.Named.{NamedElement};

use file_format::SignatureIndex;
use signature_token::{TypeRef, U64};
use status::{PartialVMResult, StatusCode};
use type_stack::Entry;
use unit_tables::UnitView;

// The element type that the instruction names, if the operand refers to a vector of it.
#[tactic(auto, using(crate::specs::Named::named))]
fn named_element<'a>(
    area: &[u8],
    operand: Entry,
    unit: &UnitView<'a, '_>,
    idx: SignatureIndex,
    mut_ref_only: bool,
) -> PartialVMResult<TypeRef<'a>>
    requires { Spans area.now operand.start operand.len }
    ensures is { NamedElement (compiled unit.now) idx.0 mut_ref_only area.now operand.start operand.len result }
    ensures in_unit { IfOk result (λ ty. ty.bytes.now ≡ unit.now.bytes.now) }
{
    let declared = unit_views::element_type_at(unit, idx)?;
    if !vector_elements::element_is(area, operand, declared, mut_ref_only) {
        return Err(StatusCode::TYPE_MISMATCH);
    }
    Ok(declared)
}

// `VecLen`.
pub fn vec_len(
    area: &mut [u8],
    weight: usize,
    unit: &UnitView<'_, '_>,
    idx: SignatureIndex,
) -> PartialVMResult<usize>
    requires { Stacked area.old weight }
    ensures { StepsTo (step.vec_len (compiled unit.now) idx.0) area.old weight area.new result }
{
    let top = type_stack::pop(area, weight)?;
    named_element(area, top, unit, idx, false)?;
    type_pushes::push_leaf(area, top.start, U64)
}

// `VecPushBack`.
pub fn vec_push_back(
    area: &[u8],
    weight: usize,
    unit: &UnitView<'_, '_>,
    idx: SignatureIndex,
) -> PartialVMResult<usize>
    requires { Stacked area.now weight }
    ensures { StepsTo (step.vec_push_back (compiled unit.now) idx.0) area.now weight area.now result }
{
    let (top, below) = type_stack::pop_two(area, weight)?;
    let declared = unit_views::element_type_at(unit, idx)?;
    if type_tests::same_type(area, top.start, top.len, declared) {
        if vector_elements::element_is(area, below, declared, true) {
            return Ok(below.start);
        }
    }
    Err(StatusCode::TYPE_MISMATCH)
}

// `VecPopBack`.
#[tactic(auto, using(type_stack::specs::Stepping::pops, operand_steps::specs::Operands::operands, step_views::specs::Looked::types), unfolding(definitions::specs::TypeSafety::vec_pop_back))]
pub fn vec_pop_back(
    area: &mut [u8],
    weight: usize,
    unit: &UnitView<'_, '_>,
    idx: SignatureIndex,
) -> PartialVMResult<usize>
    requires { Stacked area.old weight }
    ensures { StepsTo (step.vec_pop_back (compiled unit.now) idx.0) area.old weight area.new result }
{
    let top = type_stack::pop(area, weight)?;
    let element = named_element(area, top, unit, idx, true)?;
    copied_pushes::push_part(area, top.start, element.encoded())
}

// `VecSwap`: both indexes are tested before the signature is looked up.
pub fn vec_swap(
    area: &[u8],
    weight: usize,
    unit: &UnitView<'_, '_>,
    idx: SignatureIndex,
) -> PartialVMResult<usize>
    requires { Stacked area.now weight }
    ensures { StepsTo (step.vec_swap (compiled unit.now) idx.0) area.now weight area.now result }
{
    let (top, below) = type_stack::pop_two(area, weight)?;
    let vector = type_stack::pop(area, below.start)?;
    if operand_steps::is_leaf(area, below, U64) {
        if operand_steps::is_leaf(area, top, U64) {
            named_element(area, vector, unit, idx, true)?;
            return Ok(vector.start);
        }
    }
    Err(StatusCode::TYPE_MISMATCH)
}
