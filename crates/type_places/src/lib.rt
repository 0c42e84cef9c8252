// Types by their places: the places of a list's types, found in one walk along it, and types that stand at such places.
#![tactic(auto)]

ghost use Rattle.std.specs.Prelude.{◌≡◌, ◌≤◌, length};
ghost use Rattle.type_places.specs.Arguments.{Arguments, Arguments-prop, PlacedAt};
ghost use Rattle.type_places.specs.Places.{PlacesAt, PlacedList};

use signature_token::{TypeList, TypeRef};

// Types that stand in some bytes, one at each place, as the type arguments of an instruction do.
#[derive(Clone, Copy)]
pub struct TypePlaces<'a> {
    pub bytes: &'a [u8],
    pub places: &'a [u16],
    pub ghost stand: { Arguments bytes.now places.now } by { Arguments-prop bytes.now places.now },
}

impl<'a> TypePlaces<'a> {
    // The i-th of the types, if there are so many.
    pub fn get(self, i: usize) -> Option<TypeRef<'a>>
        ensures { PlacedAt self.entry.bytes.now self.entry.places.now i result }
    {
        let at = usize::from(*self.places.get(i)?);
        Some(TypeRef {
            bytes: self.bytes,
            at,
        })
    }
}

// The places of the types, to the front of out; and where the last of them ends.
pub fn type_places(types: TypeList, out: &mut [u16]) -> usize
    requires { (types.count ≤ length out.old) × (length types.bytes.now ≤ 65536) }
    ensures { PlacesAt types.entry.bytes.now types.entry.at types.entry.count out.new result }
{
    let bytes = types.bytes;
    let mut at = types.at;
    for i in 0..types.count {
        out[i] = at as u16; // fits, which is proved: `TryFrom` would ask at run time
        at = TypeRef { bytes, at }.end();
    }
    at
}

// The types of the list by their places, which out has room for. Callers lend an array of their own, as long as a list can be: no heap is used.
pub fn placed<'a>(types: TypeList<'a>, out: &'a mut [u16]) -> TypePlaces<'a>
    requires { (types.count ≤ length out.old) × (length types.bytes.now ≤ 65536) }
    ensures { PlacedList types.entry.bytes.now types.entry.at types.entry.count result.bytes.now result.places.now }
{
    type_places(types, out);
    TypePlaces {
        bytes: types.bytes,
        places: &out[..types.count],
    }
}
