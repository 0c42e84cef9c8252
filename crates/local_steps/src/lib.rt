// The steps of type_safety.rs that push or compare the type of a local or of a constant of the unit: LdConst, CopyLoc, MoveLoc and StLoc. Each finds
// out whether it succeeds before it writes, and pushes last.
#![tactic(auto, using(type_stack::specs::Stepping::pops, operand_steps::specs::Operands::operands, step_views::specs::Looked::looks, step_views::specs::Looked::types, locals::specs::Locals::local_rooms), unfolding(definitions::specs::TypeSafety::ld_const, definitions::specs::TypeSafety::copy_loc, definitions::specs::TypeSafety::move_loc, definitions::specs::TypeSafety::st_loc))]

ghost use Rattle.definitions.specs.TypeSafety as step;
ghost use Rattle.type_stack.specs.Held.{Stacked};
ghost use Rattle.type_stack.specs.Stepping.{StepsTo};
ghost use Rattle.unit_tables.specs.Compiled.{compiled};

use file_format::{Ability, ConstantPoolIndex, LocalIndex};
use locals::Locals;
use signature_token::TypeRef;
use status::{PartialVMResult, StatusCode};
use unit_tables::UnitView;

// `LdConst`.
pub fn ld_const(
    area: &mut [u8],
    weight: usize,
    unit: &UnitView<'_, '_>,
    idx: ConstantPoolIndex,
) -> PartialVMResult<usize>
    requires { Stacked area.old weight }
    ensures { StepsTo (step.ld_const (compiled unit.now) idx.0) area.old weight area.new result }
{
    let constant = unit_views::constant_at(unit, idx)?;
    copied_pushes::push_part(area, weight, constant.encoded())
}

// `CopyLoc`.
pub fn copy_loc(
    area: &mut [u8],
    weight: usize,
    locals: &Locals<'_>,
    idx: LocalIndex,
) -> PartialVMResult<usize>
    requires { Stacked area.old weight }
    ensures { StepsTo (step.copy_loc (compiled locals.now.unit) idx.0) area.old weight area.new result }
{
    let local = locals.local_at(idx)?;
    let bytes = locals.unit.bytes;
    let ty = TypeRef {
        bytes,
        at: local.at,
    };
    let status = StatusCode::COPYLOC_WITHOUT_COPY_ABILITY;
    step_views::check_ability(ty, &locals.unit, Ability::Copy, status)?;
    copied_pushes::push_part(area, weight, &bytes[local.at..local.end])
}

// `MoveLoc`.
pub fn move_loc(
    area: &mut [u8],
    weight: usize,
    locals: &Locals<'_>,
    idx: LocalIndex,
) -> PartialVMResult<usize>
    requires { Stacked area.old weight }
    ensures { StepsTo (step.move_loc (compiled locals.now.unit) idx.0) area.old weight area.new result }
{
    let local = locals.local_at(idx)?;
    copied_pushes::push_part(area, weight, &locals.unit.bytes[local.at..local.end])
}

// `StLoc`.
pub fn st_loc(
    area: &[u8],
    weight: usize,
    locals: &Locals<'_>,
    idx: LocalIndex,
) -> PartialVMResult<usize>
    requires { Stacked area.now weight }
    ensures { StepsTo (step.st_loc (compiled locals.now.unit) idx.0) area.now weight area.now result }
{
    let top = type_stack::pop(area, weight)?;
    let local = locals.local_at(idx)?;
    let ty = TypeRef {
        bytes: locals.unit.bytes,
        at: local.at,
    };
    if type_tests::same_type(area, top.start, top.len, ty) {
        return Ok(top.start);
    }
    Err(StatusCode::STLOC_TYPE_MISMATCH_ERROR)
}
