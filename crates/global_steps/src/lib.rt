// The borrows of a struct in global storage of type_safety.rs, with type arguments, which are looked up first, or without: the address is popped
// and tested, then the definition is looked up and must have key.
#![tactic(auto, using(operand_steps::specs::Leaves::addresses, step_views::specs::Looked::types))]

ghost use Rattle.std.specs.Prelude.{◌≤◌, length};
ghost use Rattle.definitions.specs.TypeSafety as step;
ghost use Rattle.record_views.specs.Records.{TypesIn};
ghost use Rattle.type_stack.specs.Held.{Stacked};
ghost use Rattle.type_stack.specs.Stepping.{StepsTo};
ghost use Rattle.unit_tables.specs.Compiled.{compiled};

use file_format::{Ability, StructDefInstantiationIndex, StructDefinitionIndex};
use signature_token::{ADDRESS, SignatureView};
use status::{PartialVMResult, StatusCode};
use unit_tables::UnitView;

// `borrow_global`: the address is popped and tested before the definition is looked up.
pub fn borrow_global(
    area: &mut [u8],
    weight: usize,
    unit: &UnitView<'_, '_>,
    mutable: bool,
    idx: StructDefinitionIndex,
    type_args: SignatureView,
) -> PartialVMResult<usize>
    requires stacked { Stacked area.old weight }
    requires short { length type_args.types.bytes.now ≤ 65535 }
    ensures { (q : TypesIn type_args.entry) → StepsTo (step.borrow_global (compiled unit.now) mutable idx.0 q.types) area.old weight area.new result }
{
    let mismatch = StatusCode::BORROWGLOBAL_TYPE_MISMATCH_ERROR;
    let no_key = StatusCode::BORROWGLOBAL_WITHOUT_KEY_ABILITY;
    let below = operand_steps::pop_leaf(area, weight, ADDRESS, mismatch)?;
    let def = unit_views::struct_def_at(unit, idx)?;
    step_views::check_struct_ability(unit, def.handle, type_args, Ability::Key, no_key)?;
    made_types::push_struct_reference(area, below, mutable, def.handle, type_args)
}

// `MutBorrowGlobalGeneric`, `ImmBorrowGlobalGeneric`: as `borrow_field_generic` of field_steps, with another record and another step.
#[tactic(auto, using(step_views::specs::Looked::looks, step_views::specs::Looked::types), unfolding(definitions::specs::TypeSafety::borrow_global_generic))]
pub fn borrow_global_generic(
    area: &mut [u8],
    weight: usize,
    unit: &UnitView<'_, '_>,
    mutable: bool,
    idx: StructDefInstantiationIndex,
) -> PartialVMResult<usize>
    requires { Stacked area.old weight }
    ensures { StepsTo (step.borrow_global_generic (compiled unit.now) mutable idx.0) area.old weight area.new result }
{
    let inst = handle_views::struct_instantiation_at(unit, idx)?;
    let type_args = unit_views::signature_at(unit, inst.type_parameters)?;
    borrow_global(area, weight, unit, mutable, inst.def, type_args)
}
