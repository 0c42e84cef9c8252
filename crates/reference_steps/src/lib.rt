// The steps of type_safety.rs over references: the borrows of a local, ReadRef and WriteRef. Each finds out whether it succeeds before it writes, and
// pushes last.
#![tactic(auto, using(type_stack::specs::Stepping::pops, operand_steps::specs::Operands::operands, step_views::specs::Looked::looks, locals::specs::Locals::local_rooms, crate::specs::Inner::references), unfolding(definitions::specs::TypeSafety::borrow_loc, definitions::specs::TypeSafety::read_ref, definitions::specs::TypeSafety::write_ref))]

ghost use Rattle.definitions.specs.TypeSafety as step;
ghost use Rattle.type_stack.specs.Held.{Stacked};
ghost use Rattle.type_stack.specs.Stepping.{StepsTo};
ghost use Rattle.unit_tables.specs.Compiled.{compiled};
ghost use Rattle.reference_steps.specs.Inner.{InnerAt};

use file_format::{Ability, LocalIndex};
use locals::Locals;
use signature_token::TypeRef;
use status::{PartialVMResult, StatusCode};
use type_tests::Referent;
use unit_tables::UnitView;

// Where what the type refers to stands, if it is a reference of either kind.
fn inner_of(ty: TypeRef) -> Option<usize>
    ensures { InnerAt ty.entry.bytes.now ty.entry.at result }
{
    match type_tests::referent_of(ty) {
        Referent::Reference(inner) => Some(inner),
        Referent::MutableReference(inner) => Some(inner),
        Referent::Value => None,
    }
}

// `MutBorrowLoc`, `ImmBorrowLoc`.
pub fn borrow_loc(
    area: &mut [u8],
    weight: usize,
    locals: &Locals<'_>,
    mutable: bool,
    idx: LocalIndex,
) -> PartialVMResult<usize>
    requires { Stacked area.old weight }
    ensures { StepsTo (step.borrow_loc (compiled locals.now.unit) mutable idx.0) area.old weight area.new result }
{
    let local = locals.local_at(idx)?;
    let bytes = locals.unit.bytes;
    let ty = TypeRef {
        bytes,
        at: local.at,
    };
    if inner_of(ty).is_some() {
        return Err(StatusCode::BORROWLOC_REFERENCE_ERROR);
    }
    let command = type_pushes::reference_command(mutable);
    copied_pushes::push_wrapped(area, weight, command, &bytes[local.at..local.end])
}

// `ReadRef`.
pub fn read_ref(area: &mut [u8], weight: usize, unit: &UnitView<'_, '_>) -> PartialVMResult<usize>
    requires { Stacked area.old weight }
    ensures { StepsTo (step.read_ref (compiled unit.now)) area.old weight area.new result }
{
    let top = type_stack::pop(area, weight)?;
    let operand = inner_of(TypeRef {
        bytes: area,
        at: top.start,
    });
    let Some(inner) = operand else {
        return Err(StatusCode::READREF_TYPE_MISMATCH_ERROR);
    };
    let referent = TypeRef {
        bytes: area,
        at: inner,
    };
    let status = StatusCode::READREF_WITHOUT_COPY_ABILITY;
    step_views::check_ability(referent, unit, Ability::Copy, status)?;
    copied_pushes::push_within(area, top.start, inner, top.start + top.len)
}

// `WriteRef`.
pub fn write_ref(area: &[u8], weight: usize, unit: &UnitView<'_, '_>) -> PartialVMResult<usize>
    requires { Stacked area.now weight }
    ensures { StepsTo (step.write_ref (compiled unit.now)) area.now weight area.now result }
{
    let (top, below) = type_stack::pop_two(area, weight)?;
    let reference = operand_steps::referent_of(area, top);
    let Referent::MutableReference(inner) = reference else {
        return Err(StatusCode::WRITEREF_NO_MUTABLE_REFERENCE_ERROR);
    };
    let referent = TypeRef {
        bytes: area,
        at: inner,
    };
    let status = StatusCode::WRITEREF_WITHOUT_DROP_ABILITY;
    step_views::check_ability(referent, unit, Ability::Drop, status)?;
    if type_tests::same_type(area, below.start, below.len, referent) {
        return Ok(below.start);
    }
    Err(StatusCode::WRITEREF_TYPE_MISMATCH_ERROR)
}
