// The steps of type_safety.rs that ask for a struct in global storage or change it: exists, move_from and move_to. Each tests key before it pops.
// `looked` is what the instruction's look-up answered, a refusal too, as in struct_steps.
#![tactic(auto, using(operand_steps::specs::Operands::operands, operand_steps::specs::Leaves::addresses))]

ghost use Rattle.std.specs.Prelude.{IfOk};
ghost use Rattle.definitions.specs.TypeSafety as step;
ghost use Rattle.file_format.specs.declared.Ability.TheVariants.{Key};
ghost use Rattle.type_stack.specs.Held.{Stacked};
ghost use Rattle.type_stack.specs.Stepping.{StepsTo};
ghost use Rattle.unit_tables.specs.Compiled.{compiled};
ghost use Rattle.step_views.specs.Checks.{AbilityIs};
ghost use Rattle.step_views.specs.Looked.{FewBytes, Looked, StructIn};
ghost use Rattle.resource_steps.specs.Resources.{SignerReferenceAt};

use file_format::Ability;
use signature_token::{ADDRESS, BOOL, SIGNER, TypeRef};
use status::{PartialVMResult, StatusCode};
use step_views::StructWith;
use type_tests::Referent;
use unit_tables::UnitView;

// Asks the struct that was found for key.
fn needs_key(unit: &UnitView<'_, '_>, found: StructWith, status: StatusCode) -> PartialVMResult<()>
    ensures { (q : StructIn found.entry) → AbilityIs (compiled unit.now) (step.struct_type q.struct) Key status result }
{
    let h = found.def.handle;
    step_views::check_struct_ability(unit, h, found.type_args, Ability::Key, status)
}

// `exists`.
pub fn exists(
    area: &mut [u8],
    weight: usize,
    unit: &UnitView<'_, '_>,
    looked: PartialVMResult<StructWith<'_>>,
) -> PartialVMResult<usize>
    requires stacked { Stacked area.old weight }
    ensures { (q : Looked looked.entry) → StepsTo (step.exists (compiled unit.now) q.result) area.old weight area.new result }
{
    let found = looked?;
    let refusal = StatusCode::EXISTS_WITHOUT_KEY_ABILITY_OR_BAD_ARGUMENT;
    needs_key(unit, found, refusal)?;
    let below = operand_steps::pop_leaf(area, weight, ADDRESS, refusal)?;
    type_pushes::push_leaf(area, below, BOOL)
}

// `move_from`.
pub fn move_from(
    area: &mut [u8],
    weight: usize,
    unit: &UnitView<'_, '_>,
    looked: PartialVMResult<StructWith<'_>>,
) -> PartialVMResult<usize>
    requires stacked { Stacked area.old weight }
    requires short { IfOk looked FewBytes }
    ensures { (q : Looked looked.entry) → StepsTo (step.move_from (compiled unit.now) q.result) area.old weight area.new result }
{
    let found = looked?;
    let no_key = StatusCode::MOVEFROM_WITHOUT_KEY_ABILITY;
    let mismatch = StatusCode::MOVEFROM_TYPE_MISMATCH_ERROR;
    needs_key(unit, found, no_key)?;
    let below = operand_steps::pop_leaf(area, weight, ADDRESS, mismatch)?;
    made_types::push_struct(area, below, found.def.handle, found.type_args)
}

// Whether the type is `&signer`.
#[tactic(auto, using(operand_steps::specs::Operands::reference_type))]
fn is_signer_reference(ty: TypeRef) -> bool
    ensures { SignerReferenceAt ty.entry.bytes.now ty.entry.at result }
{
    let Referent::Reference(at) = type_tests::referent_of(ty) else {
        return false;
    };
    let bytes = ty.bytes;
    type_tests::is_leaf(TypeRef { bytes, at }, SIGNER)
}

// `move_to`: both operands are popped before either is compared.
pub fn move_to(
    area: &[u8],
    weight: usize,
    unit: &UnitView<'_, '_>,
    looked: PartialVMResult<StructWith<'_>>,
) -> PartialVMResult<usize>
    requires stacked { Stacked area.now weight }
    ensures { (q : Looked looked.entry) → StepsTo (step.move_to (compiled unit.now) q.result) area.now weight area.now result }
{
    let found = looked?;
    needs_key(unit, found, StatusCode::MOVETO_WITHOUT_KEY_ABILITY)?;
    let (top, below) = type_stack::pop_two(area, weight)?;
    let h = found.def.handle;
    if made_types::struct_is(area, top.start, top.len, h, found.type_args) {
        if is_signer_reference(TypeRef {
            bytes: area,
            at: below.start,
        }) {
            return Ok(below.start);
        }
    }
    Err(StatusCode::MOVETO_TYPE_MISMATCH_ERROR)
}
