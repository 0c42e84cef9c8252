// Abilities, sets of them, and the indexes into a unit's tables, beside file_format.rs. Each contract is an equation with a definition, for
// every byte. The Rust's loop over a set's abilities is written out, since there are four.
#![tactic(auto)]

ghost use Rattle.std.specs.Prelude.{◌≡◌, [], ◌∷◌, map};
ghost use Rattle.definitions.specs.AbilitySet.{EMPTY, PRIMITIVES, REFERENCES, SIGNER, VECTOR, has_ability, union, intersect, required_by, with_required_by, required_by_any, meet_argument, polymorphic_abilities};
ghost use Rattle.file_format.specs.AbilitySet.{ability_of, set_of, from_u8, is_phantom_byte, abilities_answer};

use status::{PartialVMResult, StatusCode};

// What may be done with the values of a type: each ability is its bit in a set.
#[derive(Clone, Copy)]
pub enum Ability {
    Copy = 1,
    Drop = 2,
    Store = 4,
    Key = 8,
}

impl Ability {
    // The abilities that ask this one of a type argument: key asks store, each other one itself.
    #[tactic(auto, unfolding(definitions::specs::AbilitySet::required_by))]
    fn required_by(self) -> AbilitySet
        ensures { result ≡ set_of (required_by (ability_of self)) }
    {
        match self {
            Ability::Copy => AbilitySet(Ability::Copy as u8),
            Ability::Drop => AbilitySet(Ability::Drop as u8),
            Ability::Store => AbilitySet(Ability::Store as u8 | Ability::Key as u8),
            Ability::Key => AbilitySet::EMPTY,
        }
    }
}

// A set of abilities, a bit for each.
#[derive(Clone, Copy)]
pub struct AbilitySet(pub u8);

impl AbilitySet {
    pub const EMPTY: AbilitySet = AbilitySet(0);

    // Of bool, u8, u64, u128 and address: copy, drop, store.
    pub const PRIMITIVES: AbilitySet = AbilitySet(7);

    // Of both kinds of reference: copy, drop.
    pub const REFERENCES: AbilitySet = AbilitySet(3);

    // Of signer: drop.
    pub const SIGNER: AbilitySet = AbilitySet(2);

    // Of a vector, as far as its element has them: copy, drop, store.
    pub const VECTOR: AbilitySet = AbilitySet(7);

    pub const ALL: AbilitySet = AbilitySet(15);

    // `AbilitySet::from_u8`: a byte is a set where each of its bits is an ability. No `TryFrom`, since the Rust answers an Option under this name.
    pub fn from_u8(byte: u8) -> Option<AbilitySet>
        ensures { result ≡ from_u8 byte }
    {
        if byte & AbilitySet::ALL.0 == byte {
            Some(AbilitySet(byte))
        } else {
            None
        }
    }

    #[tactic(auto, unfolding(definitions::specs::AbilitySet::has_ability))]
    pub fn has_ability(self, ability: Ability) -> bool
        ensures { result ≡ has_ability self.0 (ability_of ability) }
    {
        let a = ability as u8;
        a & self.0 == a
    }

    #[tactic(auto, unfolding(definitions::specs::AbilitySet::union))]
    fn union(self, other: AbilitySet) -> AbilitySet
        ensures { result ≡ set_of (union self.0 other.0) }
    {
        AbilitySet(self.0 | other.0)
    }

    #[tactic(auto, unfolding(definitions::specs::AbilitySet::intersect))]
    fn intersect(self, other: AbilitySet) -> AbilitySet
        ensures { result ≡ set_of (intersect self.0 other.0) }
    {
        AbilitySet(self.0 & other.0)
    }

    // One turn of the union below: `acc`, with what the ability is required by if this set has it.
    #[tactic(auto, unfolding(definitions::specs::AbilitySet::with_required_by))]
    fn with_required_by(self, acc: AbilitySet, ability: Ability) -> AbilitySet
        ensures { result ≡ set_of (with_required_by self.0 acc.0 (ability_of ability)) }
    {
        if self.has_ability(ability) {
            acc.union(ability.required_by())
        } else {
            acc
        }
    }

    // The union of `required_by` over the set: what a type argument with these abilities leaves to the type.
    #[tactic(auto, unfolding(definitions::specs::AbilitySet::required_by_any))]
    fn required_by_any(self) -> AbilitySet
        ensures { result ≡ set_of (required_by_any self.0) }
    {
        let copy = self.with_required_by(AbilitySet::EMPTY, Ability::Copy);
        let drop = self.with_required_by(copy, Ability::Drop);
        let store = self.with_required_by(drop, Ability::Store);
        self.with_required_by(store, Ability::Key)
    }

    // This set after one more type argument, whose abilities are a byte; 1 marks a phantom parameter.
    #[tactic(auto, unfolding(definitions::specs::AbilitySet::meet_argument))]
    fn meet_argument(self, phantom: u8, argument: u8) -> AbilitySet
        ensures { result ≡ set_of (meet_argument self.0 (is_phantom_byte phantom) argument) }
    {
        if phantom == 1 {
            self
        } else {
            self.intersect(AbilitySet(argument).required_by_any())
        }
    }

    // The abilities of a generic type over its arguments. They must be as many as its parameters. Both come as bytes: the phantoms stand so
    // in the unit, where a slice of bools would be a copy, and the sets are bytes in the definitions too.
    #[tactic(auto, using(crate::proofs::Sets::unequal))]
    pub fn polymorphic_abilities(
        declared: AbilitySet,
        phantoms: &[u8],
        sets: &[u8],
    ) -> PartialVMResult<AbilitySet>
        ensures { result ≡ abilities_answer (polymorphic_abilities declared.0 (map is_phantom_byte phantoms.now) sets.now) }
    {
        if phantoms.len() != sets.len() {
            return Err(StatusCode::VERIFIER_INVARIANT_VIOLATION);
        }
        Ok(
            phantoms
                .iter()
                .zip(sets)
                .fold(declared, |acc, (phantom, argument)| {
                    acc.meet_argument(*phantom, *argument)
                }),
        )
    }

    // A constant has no contract of its own: this states the value of each.
    fn constants() -> [AbilitySet; 5]
        ensures { result ≡ set_of EMPTY ∷ set_of PRIMITIVES ∷ set_of REFERENCES ∷ set_of SIGNER ∷ set_of VECTOR ∷ [] }
    {
        [
            AbilitySet::EMPTY,
            AbilitySet::PRIMITIVES,
            AbilitySet::REFERENCES,
            AbilitySet::SIGNER,
            AbilitySet::VECTOR,
        ]
    }
}

// An index into each table of a unit. The types differ, so that one is not taken for another; they are tuple structs under the names of
// file_format.rs, as document 01 asks, and not one type with a parameter.
#[derive(Clone, Copy)]
pub struct StructHandleIndex(pub u16);

#[derive(Clone, Copy)]
pub struct FunctionHandleIndex(pub u16);

#[derive(Clone, Copy)]
pub struct FieldHandleIndex(pub u16);

#[derive(Clone, Copy)]
pub struct StructDefInstantiationIndex(pub u16);

#[derive(Clone, Copy)]
pub struct FunctionInstantiationIndex(pub u16);

#[derive(Clone, Copy)]
pub struct FieldInstantiationIndex(pub u16);

#[derive(Clone, Copy)]
pub struct ConstantPoolIndex(pub u16);

#[derive(Clone, Copy)]
pub struct SignatureIndex(pub u16);

#[derive(Clone, Copy)]
pub struct StructDefinitionIndex(pub u16);

// An index into a function's parameters and locals.
#[derive(Clone, Copy)]
pub struct LocalIndex(pub u8);
