// `Locals` of type_safety.rs: the types of the function's parameters and of its other locals, by their places in the unit. The places are
// found once for a call, and behind them the end of the last type, so that each type ends at the next entry. The look-up over the struct is
// thin; the work is in `place_of`.
#![tactic(auto)]

ghost use Rattle.std.specs.Prelude.{◌≡◌, ◌+◌, ◌≤◌, ◌<◌, length};
ghost use Rattle.definitions.specs.CompiledUnit as defs;
ghost use Rattle.unit_tables.specs.Answers.{ResultIs};
ghost use Rattle.unit_tables.specs.Compiled.{compiled};
ghost use Rattle.function_views.specs.Named.{types_of};
ghost use Rattle.locals.specs.Places.{LocalPlaces, LocalPlaces-prop};
ghost use Rattle.locals.specs.Locals.{bounds_at, place_of, PlacesIn, LocalIs};

use file_format::LocalIndex;
use function_views::FunctionTypes;
use status::{PartialVMResult, StatusCode};
use unit_tables::UnitView;

// `Locals`: the unit, and for the parameters and for the other locals the places of their types and the end of the last one.
#[derive(Clone, Copy)]
pub struct Locals<'a> {
    pub unit: UnitView<'a, 'a>,
    pub parameters: &'a [u16],
    pub locals: &'a [u16],
    pub ghost places: { LocalPlaces unit.bytes.now (compiled unit).function parameters.now locals.now } by { LocalPlaces-prop (compiled unit).function },
}

// A local's type: where it stands in the unit and where it ends. Not a `TypeRef`, whose end would be looked for again where the type is pushed.
#[derive(Clone, Copy)]
pub struct LocalType {
    pub at: usize,
    pub end: usize,
}

// The type at entry i of a list: it ends at the next entry.
fn bounds_at(places: &[u16], i: usize) -> LocalType
    requires { i + 1 < length places.now }
    ensures { result ≡ bounds_at places.now i }
{
    LocalType {
        at: usize::from(places[i]),
        end: usize::from(places[i + 1]),
    }
}

// The work of `local_at`, over any two tables of places: parameters first, then the other locals.
#[tactic(auto, using(crate::specs::Locals::place_laws))]
pub fn place_of(parameters: &[u16], locals: &[u16], idx: LocalIndex) -> PartialVMResult<LocalType>
    ensures { result ≡ place_of parameters.now locals.now idx.0 }
{
    let i = usize::from(idx.0);
    let n = parameters.len();
    if i + 1 < n {
        return Ok(bounds_at(parameters, i));
    }
    let j = i + 1 - n;
    if j + 1 < locals.len() {
        return Ok(bounds_at(locals, j));
    }
    Err(StatusCode::OUT_OF_TABLE)
}

impl Locals<'_> {
    // `Locals::local_at`.
    #[tactic(auto, using(crate::specs::Locals::local_type))]
    pub fn local_at(&self, idx: LocalIndex) -> PartialVMResult<LocalType>
        ensures { ResultIs (LocalIs self.now.unit.bytes.now) (defs.local_at (compiled self.now.unit) idx.0) result }
    {
        place_of(self.parameters, self.locals, idx)
    }
}

// The places of the types of one of the function's lists and the end of the last one, to the front of out. Answers how many entries there
// are. The end of a list of no types has any value.
#[tactic(auto, using(crate::specs::Locals::listed_laws))]
pub fn places(unit: &UnitView<'_, '_>, which: FunctionTypes, out: &mut [u16]) -> usize
    requires { 256 ≤ length out.old }
    ensures { PlacesIn unit.now.bytes.now (types_of which (compiled unit.now).function) out.new result }
{
    let signature = function_views::function_types(unit, which);
    let n = signature.types.count;
    if n == 0 {
        return 1;
    }
    let end = type_places::type_places(signature.types, out);
    out[n] = end as u16; // fits, which is proved: `TryFrom` would ask at run time
    n + 1
}
