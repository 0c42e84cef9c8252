// The steps of type_safety.rs that call a function: `call`, and Call and CallGeneric above it.
#![tactic(auto, using(step_views::specs::Looked::looks, step_views::specs::Looked::types), unfolding(definitions::specs::TypeSafety::call, definitions::specs::TypeSafety::function_call, definitions::specs::TypeSafety::function_call_generic))]

ghost use Rattle.definitions.specs.TypeSafety as step;
ghost use Rattle.type_stack.specs.Held.{Stacked};
ghost use Rattle.type_stack.specs.Stepping.{StepsTo};
ghost use Rattle.unit_tables.specs.Compiled.{compiled};
ghost use Rattle.handle_views.specs.Answers.{handle_of};

use file_format::{FunctionHandleIndex, FunctionInstantiationIndex};
use handle_views::FunctionHandle;
use status::{PartialVMResult, StatusCode};
use type_places::TypePlaces;
use unit_tables::UnitView;

// `call`: the parameters' signature is looked up before the first pop, the returns' only after all pops and comparisons. `args` are the
// type arguments.
fn call(
    area: &mut [u8],
    weight: usize,
    unit: &UnitView<'_, '_>,
    handle: FunctionHandle,
    args: TypePlaces,
) -> PartialVMResult<usize>
    requires { Stacked area.old weight }
    ensures { StepsTo (step.call (compiled unit.now) (handle_of handle) args.entry.stand.subst) area.old weight area.new result }
{
    let mismatch = StatusCode::CALL_TYPE_MISMATCH_ERROR;
    let parameters = unit_views::signature_at(unit, handle.parameters)?;
    let below = list_steps::pop_each(area, weight, parameters, &args, mismatch)?;
    let returns = unit_views::signature_at(unit, handle.return_)?;
    let pushed = list_steps::push_each(area, below, returns, args);
    type_stack::rebuilt(pushed)
}

// `Call`: it has no type arguments.
pub fn function_call(
    area: &mut [u8],
    weight: usize,
    unit: &UnitView<'_, '_>,
    idx: FunctionHandleIndex,
) -> PartialVMResult<usize>
    requires { Stacked area.old weight }
    ensures { StepsTo (step.function_call (compiled unit.now) idx.0) area.old weight area.new result }
{
    let handle = handle_views::function_handle_at(unit, idx)?;
    let args = TypePlaces {
        bytes: unit.bytes,
        places: &[],
    };
    call(area, weight, unit, handle, args)
}

// `CallGeneric`: its instantiation, its handle and its type arguments are looked up. The places of the arguments are found once.
pub fn function_call_generic(
    area: &mut [u8],
    weight: usize,
    unit: &UnitView<'_, '_>,
    idx: FunctionInstantiationIndex,
) -> PartialVMResult<usize>
    requires { Stacked area.old weight }
    ensures { StepsTo (step.function_call_generic (compiled unit.now) idx.0) area.old weight area.new result }
{
    let inst = handle_views::function_instantiation_at(unit, idx)?;
    let handle = handle_views::function_handle_at(unit, inst.handle)?;
    let type_args = unit_views::signature_at(unit, inst.type_parameters)?;
    let mut places = [0u16; 255]; // no heap is used
    let args = type_places::placed(type_args.types, &mut places);
    call(area, weight, unit, handle, args)
}
