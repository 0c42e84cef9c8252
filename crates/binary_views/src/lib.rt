// The abilities of a type, over its bytes and those of a unit that was read, beside `BinaryIndexedView::abilities` of binary_views.rs.
// A struct handle is found by its place in the unit, which the reader noted, and not by a walk over the table.
#![tactic(auto)]

ghost use Rattle.std.specs.Prelude.{◌≡◌, ◌+◌, ◌≤◌, length, slice_index, IfOk};
ghost use Rattle.definitions.specs.Result.{at};
ghost use Rattle.file_format.specs.Answers.{answer};
ghost use Rattle.file_format.specs.AbilitySet.{set_of, abilities_answer};
ghost use Rattle.binary_views.specs.Tables.{PlaceAt};
ghost use Rattle.binary_views.specs.Handles.{HandlesAt};
ghost use Rattle.binary_views.specs.Abilities.{leaf_set, of_vector, ending_at, StructAbilitiesAt, InstantiatedAt, AbilitiesAt, MaterializedAbilities, AbilitiesToAt, InstantiationToAt, GatheredAt};

use file_format::{AbilitySet, StructHandleIndex};
use signature_token::{SIGNER, SignatureView, Token, TypeList, TypeRef, Wrapper};
use status::{PartialVMResult, StatusCode};

// What abilities are looked up in: a unit, the places of its struct handles, and the abilities of the function's type parameters.
#[derive(Clone, Copy)]
pub struct AbilityTables<'a> {
    pub unit: &'a [u8],
    pub handles: &'a [u16],
    pub constraints: &'a [u8],
    pub ghost handles_at: { ∥ HandlesAt unit.now handles.now ∥₁ },
}

// The entry of a table that has this index, where the Rust indexes a vector.
#[tactic(auto, using(crate::specs::Tables::got))]
fn entry_at<T: Copy>(table: &[T], i: usize) -> PartialVMResult<T>
    ensures { result ≡ answer (λ entry. entry) (at table.now i) }
{
    table.get(i).copied().ok_or(StatusCode::OUT_OF_TABLE)
}

// The abilities of a leaf, by its command: only signer's are not those of all others.
pub fn leaf_abilities(command: u8) -> AbilitySet
    ensures { result ≡ set_of (leaf_set command) }
{
    if command == SIGNER {
        AbilitySet::SIGNER
    } else {
        AbilitySet::PRIMITIVES
    }
}

// The abilities of a vector, by those of its element.
fn vector_abilities(element: AbilitySet) -> PartialVMResult<AbilitySet>
    ensures { result ≡ of_vector element }
{
    AbilitySet::polymorphic_abilities(AbilitySet::VECTOR, &[0], &[element.0])
}

// An answer with the type's end.
fn ending_at(set: PartialVMResult<AbilitySet>, end: usize) -> PartialVMResult<(AbilitySet, usize)>
    ensures { result ≡ ending_at set end }
{
    Ok((set?, end))
}

impl AbilityTables<'_> {
    // Where the h-th struct handle stands.
    #[tactic(auto, using(crate::specs::Handles::handle_room))]
    fn struct_handle_at(&self, h: StructHandleIndex) -> PartialVMResult<usize>
        ensures is { PlaceAt self.now.handles.now h.0 result }
        ensures fits { IfOk result (λ p. p + 3 + slice_index self.now.unit.now (p + 2) ≤ length self.now.unit.now) }
    {
        Ok(usize::from(entry_at(self.handles, usize::from(h.0))?))
    }

    // The abilities of a struct that is not instantiated: those that its handle declares.
    #[tactic(auto, using(crate::specs::Abilities::struct_found, crate::specs::Abilities::struct_past))]
    fn struct_abilities(&self, h: StructHandleIndex) -> PartialVMResult<AbilitySet>
        ensures { StructAbilitiesAt self.now.unit.now self.now.handles.now h.0 result }
    {
        let p = self.struct_handle_at(h)?;
        Ok(AbilitySet(self.unit[p + 1]))
    }

    // The abilities of a struct whose handle stands at p, over those of its arguments.
    #[tactic(auto, using(crate::specs::Abilities::instantiated_at))]
    fn instantiated_abilities(&self, p: usize, sets: &[u8]) -> PartialVMResult<AbilitySet>
        requires { p + 3 + slice_index self.now.unit.now (p + 2) ≤ length self.now.unit.now }
        ensures { InstantiatedAt self.now.unit.now p sets.now result }
    {
        let from = p + 3;
        let to = from + usize::from(self.unit[p + 2]);
        AbilitySet::polymorphic_abilities(AbilitySet(self.unit[p + 1]), &self.unit[from..to], sets)
    }

    // The abilities of the function's i-th type parameter.
    fn type_parameter_abilities(&self, i: usize) -> PartialVMResult<AbilitySet>
        ensures { result ≡ abilities_answer (at self.now.constraints.now i) }
    {
        Ok(AbilitySet(entry_at(self.constraints, i)?))
    }

    // The abilities of a type. A reference is not looked into.
    pub fn abilities(&self, ty: TypeRef) -> PartialVMResult<AbilitySet>
        ensures { AbilitiesAt ty.entry.bytes.now ty.entry.at self.now.unit.now self.now.handles.now self.now.constraints.now result }
    {
        let (set, _) = self.abilities_to(ty)?;
        Ok(set)
    }

    // The same with the type's end, which this walk finds, so that a walk along types goes on from there: were it asked of another walk, each level
    // of a type would be walked once more. Only a reference's end is, since its abilities do not depend on what is inside it.
    #[cycle(abilities_to_gather_instantiation_abilities)]
    fn abilities_to(&self, ty: TypeRef) -> PartialVMResult<(AbilitySet, usize)>
        ensures { AbilitiesToAt ty.entry.bytes.now ty.entry.at self.now.unit.now self.now.handles.now self.now.constraints.now result }
    {
        let bytes = ty.bytes;
        let at = ty.at;
        match ty.token() {
            Token::Leaf(command) => Ok((leaf_abilities(command), at + 1)),
            Token::Wrapped(wrapper, inner) => {
                let inner = TypeRef { bytes, at: inner };
                match wrapper {
                    Wrapper::Vector => {
                        let (element, end) = self.abilities_to(inner)?;
                        ending_at(vector_abilities(element), end)
                    }
                    Wrapper::Reference | Wrapper::MutableReference => {
                        Ok((AbilitySet::REFERENCES, inner.end()))
                    }
                }
            }
            Token::Struct(h) => ending_at(self.struct_abilities(h), at + 3),
            Token::StructInstantiation(h, count, at) => {
                let types = TypeList { bytes, at, count };
                self.instantiation_abilities(h, SignatureView { types })
            }
            Token::TypeParameter(i) => ending_at(self.type_parameter_abilities(i), at + 3),
        }
    }

    // The abilities of the struct with these arguments: its handle is looked up, then theirs, and only then are the lengths compared. It ends
    // where the last argument does.
    #[cycle(abilities_to_gather_instantiation_abilities)]
    fn instantiation_abilities(
        &self,
        h: StructHandleIndex,
        arguments: SignatureView,
    ) -> PartialVMResult<(AbilitySet, usize)>
        ensures { InstantiationToAt h.0 arguments.entry.types.bytes.now arguments.entry.types.at arguments.entry.types.count self.now.unit.now self.now.handles.now self.now.constraints.now result }
    {
        let p = self.struct_handle_at(h)?;
        let mut room = [0u8; 255]; // as many as a type can have arguments: no heap is used
        let sets = &mut room[..arguments.types.count];
        let end = self.gather(arguments.types, sets)?;
        ending_at(self.instantiated_abilities(p, sets), end)
    }

    // The abilities of what `materialize_type` makes of a handle and these arguments.
    #[tactic(auto, using(crate::specs::Abilities::plain_made, crate::specs::Abilities::generic_made))]
    pub fn materialized_abilities(
        &self,
        h: StructHandleIndex,
        arguments: SignatureView,
    ) -> PartialVMResult<AbilitySet>
        ensures { MaterializedAbilities h.0 arguments.entry.types.bytes.now arguments.entry.types.at arguments.entry.types.count self.now.unit.now self.now.handles.now self.now.constraints.now result }
    {
        if arguments.types.count == 0 {
            return self.struct_abilities(h);
        }
        let (set, _) = self.instantiation_abilities(h, arguments)?;
        Ok(set)
    }

    // The abilities of the types, one for each place of `sets`, and where the last type ends; the first refusal ends the walk.
    #[cycle(abilities_to_gather_instantiation_abilities)]
    fn gather(&self, types: TypeList, sets: &mut [u8]) -> PartialVMResult<usize>
        requires { types.count ≡ length sets.old }
        ensures { GatheredAt types.entry.bytes.now types.entry.at types.entry.count self.now.unit.now self.now.handles.now self.now.constraints.now sets.new result }
    {
        let bytes = types.bytes;
        let mut at = types.at;
        for set in sets {
            let (abilities, end) = self.abilities_to(TypeRef { bytes, at })?;
            *set = abilities.0;
            at = end;
        }
        Ok(at)
    }
}
