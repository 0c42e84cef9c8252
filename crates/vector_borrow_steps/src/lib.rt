// VecImmBorrow and VecMutBorrow of type_safety.rs: the element type is looked up before the pops.
#![tactic(auto, using(operand_steps::specs::Operands::operands, step_views::specs::Looked::types, step_views::specs::Looked::looks), unfolding(definitions::specs::TypeSafety::borrow_vector_element))]

ghost use Rattle.definitions.specs.TypeSafety as step;
ghost use Rattle.type_stack.specs.Held.{Stacked};
ghost use Rattle.type_stack.specs.Stepping.{StepsTo};
ghost use Rattle.unit_tables.specs.Compiled.{compiled};

use file_format::SignatureIndex;
use signature_token::U64;
use status::{PartialVMResult, StatusCode};
use unit_tables::UnitView;

// `VecImmBorrow`, `VecMutBorrow`.
pub fn borrow_vector_element(
    area: &mut [u8],
    weight: usize,
    unit: &UnitView<'_, '_>,
    idx: SignatureIndex,
    mut_ref_only: bool,
) -> PartialVMResult<usize>
    requires { Stacked area.old weight }
    ensures { StepsTo (step.borrow_vector_element (compiled unit.now) mut_ref_only idx.0) area.old weight area.new result }
{
    let declared = unit_views::element_type_at(unit, idx)?;
    let (top, below) = type_stack::pop_two(area, weight)?;
    if operand_steps::is_leaf(area, top, U64) {
        if vector_elements::element_is(area, below, declared, mut_ref_only) {
            let command = type_pushes::reference_command(mut_ref_only);
            let bytes = declared.encoded();
            return copied_pushes::push_wrapped(area, below.start, command, bytes);
        }
    }
    Err(StatusCode::TYPE_MISMATCH)
}
