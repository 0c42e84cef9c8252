// A unit's struct handles, and the abilities of a type and of a struct in the unit: by the handles, and by the constraints of the function's type
// parameters.
#![tactic(auto)]

ghost use Rattle.definitions.specs.CompiledUnit as defs;
ghost use Rattle.definitions.specs.Places.{TypeAt};
ghost use Rattle.definitions.specs.Substitution.{materialize_type};
ghost use Rattle.record_views.specs.Records.{TypesIn};
ghost use Rattle.unit_tables.specs.Answers.{ResultIs};
ghost use Rattle.unit_tables.specs.Compiled.{compiled};
ghost use Rattle.ability_views.specs.Answers.{HandleIs, ContextIs, AbilitiesIs};

use binary_views::AbilityTables;
use file_format::{AbilitySet, StructHandleIndex};
use signature_token::{SignatureView, TypeRef};
use status::PartialVMResult;
use unit_tables::UnitView;

// A struct's declared abilities, and its type parameters: `count` bytes at `parameters`, 1 where one is phantom. By place and count, as its promise has
// them, which speaks of the place too.
#[derive(Clone, Copy)]
pub struct StructHandle {
    pub abilities: AbilitySet,
    pub parameters: usize,
    pub count: usize,
}

// `struct_handle_at` of binary_views.rs. The passes ask for abilities alone, and `AbilityTables` has a look-up of its own for them, over the places of the
// handles; this one is for callers that have a unit.
#[tactic(auto, using(crate::specs::Lookups::handle_laws))]
pub fn struct_handle_at(
    unit: &UnitView<'_, '_>,
    idx: StructHandleIndex,
) -> PartialVMResult<StructHandle>
    ensures { ResultIs (HandleIs unit.now.bytes.now) (defs.struct_handle_at (compiled unit.now) idx.0) result }
{
    let p = unit.look_up(unit.view.struct_handles, idx.0)?;
    Ok(StructHandle {
        abilities: AbilitySet(unit.bytes[p + 1]),
        parameters: p + 3,
        count: usize::from(unit.bytes[p + 2]),
    })
}

// What the abilities of a type depend on: the struct handles, which are the first entries of the index, and the constraints of the function's
// type parameters, the last part of its record, behind their count.
#[tactic(auto, using(crate::specs::Function::context_laws))]
fn ability_tables<'a>(unit: &UnitView<'a, 'a>) -> AbilityTables<'a>
    ensures { ContextIs unit.now.bytes.now (compiled unit.now) result }
{
    let handles = usize::from(unit.view.struct_handles.count);
    let from = unit.view.function + 8;
    let to = from + usize::from(unit.bytes[unit.view.function + 7]);
    AbilityTables {
        unit: unit.bytes,
        handles: &unit.index[..handles],
        constraints: &unit.bytes[from..to],
    }
}

// The abilities of a type, which stands in the unit or in the area.
pub fn abilities(ty: TypeRef, unit: &UnitView<'_, '_>) -> PartialVMResult<AbilitySet>
    ensures { (q : TypeAt ty.entry.bytes.now ty.entry.at) → AbilitiesIs (compiled unit.now) q.type result }
{
    ability_tables(unit).abilities(ty)
}

// The abilities of the struct with these type arguments.
pub fn struct_abilities(
    unit: &UnitView<'_, '_>,
    h: StructHandleIndex,
    type_args: SignatureView,
) -> PartialVMResult<AbilitySet>
    ensures { (q : TypesIn type_args.entry) → AbilitiesIs (compiled unit.now) (materialize_type h.0 q.types) result }
{
    ability_tables(unit).materialized_abilities(h, type_args)
}
