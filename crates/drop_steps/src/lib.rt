// The steps of type_safety.rs that ask whether an operand may be dropped: Pop, Eq and Neq.
#![tactic(auto, using(type_stack::specs::Stepping::pops, operand_steps::specs::Operands::operands), unfolding(definitions::specs::TypeSafety::pop_step, definitions::specs::TypeSafety::equality))]

ghost use Rattle.definitions.specs.TypeSafety as step;
ghost use Rattle.type_stack.specs.Held.{Stacked};
ghost use Rattle.type_stack.specs.Stepping.{StepsTo};
ghost use Rattle.unit_tables.specs.Compiled.{compiled};

use file_format::Ability;
use signature_token::{BOOL, TypeRef};
use status::{PartialVMResult, StatusCode};
use unit_tables::UnitView;

// `Pop`.
pub fn pop_step(area: &[u8], weight: usize, unit: &UnitView<'_, '_>) -> PartialVMResult<usize>
    requires { Stacked area.now weight }
    ensures { StepsTo (step.pop_step (compiled unit.now)) area.now weight area.now result }
{
    let top = type_stack::pop(area, weight)?;
    let operand = TypeRef {
        bytes: area,
        at: top.start,
    };
    step_views::check_ability(
        operand,
        unit,
        Ability::Drop,
        StatusCode::POP_WITHOUT_DROP_ABILITY,
    )?;
    Ok(top.start)
}

// `Eq`, `Neq`.
pub fn equality(area: &mut [u8], weight: usize, unit: &UnitView<'_, '_>) -> PartialVMResult<usize>
    requires { Stacked area.old weight }
    ensures { StepsTo (step.equality (compiled unit.now)) area.old weight area.new result }
{
    let mismatch = StatusCode::EQUALITY_OP_TYPE_MISMATCH_ERROR;
    let (top, below) = type_stack::pop_two(area, weight)?;
    let operand = TypeRef {
        bytes: area,
        at: top.start,
    };
    step_views::check_ability(operand, unit, Ability::Drop, mismatch)?;
    if operand_steps::same_type(area, top, below) {
        return type_pushes::push_leaf(area, below.start, BOOL);
    }
    Err(mismatch)
}
