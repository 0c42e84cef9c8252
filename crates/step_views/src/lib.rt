// What a step looks up in the unit beyond one table: a struct with its type arguments, and whether a type has the ability that is asked
// of it. A look-up that fails is the step's refusal.
#![tactic(auto)]

ghost use Rattle.definitions.specs.CompiledUnit as defs;
ghost use Rattle.definitions.specs.Places.{TypeAt};
ghost use Rattle.definitions.specs.Substitution.{materialize_type};
ghost use Rattle.record_views.specs.Records.{TypesIn};
ghost use Rattle.std.specs.Prelude.{◌≡◌, IfOk};
ghost use Rattle.unit_tables.specs.Answers.{ResultIs};
ghost use Rattle.unit_tables.specs.Compiled.{compiled};
ghost use Rattle.step_views.specs.Structs.{WithIs, WithIn};
ghost use Rattle.step_views.specs.Checks.{asked, AbilityIs};

use file_format::{
    Ability, AbilitySet, StructDefInstantiationIndex, StructDefinitionIndex, StructHandleIndex,
};
use record_views::StructDef;
use signature_token::{SignatureView, Token, TypeRef};
use status::{PartialVMResult, StatusCode};
use unit_tables::UnitView;

// A struct definition and its type arguments.
#[derive(Clone, Copy)]
pub struct StructWith<'a> {
    pub def: StructDef<'a>,
    pub type_args: SignatureView<'a>,
}

// A struct that is not generic: it has no type arguments.
#[tactic(auto, using(crate::specs::Structs::plain_laws))]
pub fn plain_struct<'a>(
    unit: &UnitView<'a, '_>,
    idx: StructDefinitionIndex,
) -> PartialVMResult<StructWith<'a>>
    ensures value { ResultIs WithIs (defs.plain_struct (compiled unit.now) idx.0) result }
    ensures in_unit { IfOk result (WithIn unit.now.bytes.now) }
{
    let def = unit_views::struct_def_at(unit, idx)?;
    let type_args = unit_views::no_types(unit);
    Ok(StructWith { def, type_args })
}

// A generic struct: its instantiation, its definition, and then its type arguments are looked up.
#[tactic(auto, using(crate::specs::Structs::generic_laws))]
pub fn generic_struct<'a>(
    unit: &UnitView<'a, '_>,
    idx: StructDefInstantiationIndex,
) -> PartialVMResult<StructWith<'a>>
    ensures value { ResultIs WithIs (defs.generic_struct (compiled unit.now) idx.0) result }
    ensures in_unit { IfOk result (WithIn unit.now.bytes.now) }
{
    let inst = handle_views::struct_instantiation_at(unit, idx)?;
    let def = unit_views::struct_def_at(unit, inst.def)?;
    let type_args = unit_views::signature_at(unit, inst.type_parameters)?;
    Ok(StructWith { def, type_args })
}

// Whether abilities have the one asked; where not, the status given is the refusal.
fn check_set(set: AbilitySet, ability: Ability, status: StatusCode) -> PartialVMResult<()>
    ensures { result ≡ asked ability status set.0 }
{
    if set.has_ability(ability) {
        return Ok(());
    }
    Err(status)
}

// `verifier.abilities(&type)?`, asked for an ability, of a type that stands in the unit or in the area. A leaf's are known by its command
// alone: most types that are asked are leaves, and the unit's tables are left aside for them.
#[tactic(auto, using(crate::specs::Checks::asked_laws))]
pub fn check_ability(
    ty: TypeRef,
    unit: &UnitView<'_, '_>,
    ability: Ability,
    status: StatusCode,
) -> PartialVMResult<()>
    ensures { (q : TypeAt ty.entry.bytes.now ty.entry.at) → AbilityIs (compiled unit.now) q.type ability status result }
{
    match ty.token() {
        Token::Leaf(command) => check_set(binary_views::leaf_abilities(command), ability, status),
        _ => check_set(ability_views::abilities(ty, unit)?, ability, status),
    }
}

// The same of a struct with these type arguments. It is not written out to be asked.
#[tactic(auto, using(crate::specs::Checks::asked_laws))]
pub fn check_struct_ability(
    unit: &UnitView<'_, '_>,
    h: StructHandleIndex,
    type_args: SignatureView,
    ability: Ability,
    status: StatusCode,
) -> PartialVMResult<()>
    ensures { (q : TypesIn type_args.entry) → AbilityIs (compiled unit.now) (materialize_type h.0 q.types) ability status result }
{
    let set = ability_views::struct_abilities(unit, h, type_args)?;
    check_set(set, ability, status)
}
