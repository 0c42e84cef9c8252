// Pops and pushes of a list of types, each with its parameters replaced: what a call does with its parameters and its returns, and Pack and
// Unpack with the fields. `args` are the type arguments by their places in the unit, found once for an instruction. `Ret` compares the types
// as they stand. Pushes are weighed, all of them, before the first is written.
#![tactic(auto)]

ghost use Rattle.std.specs.Prelude.{reverse, ◌≤◌, length};
ghost use Rattle.definitions.specs.Machine.{pop_one, pop_each};
ghost use Rattle.definitions.specs.Places.{TypeAt};
ghost use Rattle.definitions.specs.Result.{Result, ok};
ghost use Rattle.definitions.specs.SignatureToken.{SignatureToken};
ghost use Rattle.definitions.specs.Substitution.{instantiate};
ghost use Rattle.definitions.specs.TypeSafety as step;
ghost use Rattle.signature_token.specs.Same.{Spans};
ghost use Rattle.type_places.specs.Arguments.{Arguments};
ghost use Rattle.type_stack.specs.Held.{Stacked};
ghost use Rattle.type_stack.specs.Stepping.{StepsTo};
ghost use Rattle.unit_tables.specs.Compiled.{compiled};
ghost use Rattle.list_steps.specs.Forms.{ComparedWith, PopsEach, PushesEach, InstantiatesEach};
ghost use Rattle.list_steps.specs.Pushes.{AllFit, WeighsEach};

use function_views::FunctionTypes;
use signature_token::{SignatureView, TypeRef};
use status::{PartialVMResult, StatusCode};
use type_places::TypePlaces;
use type_stack::Entry;
use unit_tables::UnitView;

// How a type of a list is taken, to be compared with an operand.
pub trait Form {
    // what is made of a type
    ghost made: { Self → SignatureToken → Result SignatureToken };

    fn compare(&self, area: &[u8], operand: Entry, ty: TypeRef) -> PartialVMResult<bool>
        requires { Spans area.now operand.start operand.len }
        ensures { ComparedWith (made self.now) area.now operand.start operand.len ty.entry.bytes.now ty.entry.at result };
}

// The types as they stand.
#[derive(Clone, Copy)]
pub struct Written;

impl Form for Written {
    ghost made = { λ form t. ok t };

    fn compare(&self, area: &[u8], operand: Entry, ty: TypeRef) -> PartialVMResult<bool> {
        Ok(type_tests::same_type(area, operand.start, operand.len, ty))
    }
}

// The types with these arguments in their parameters' places.
impl Form for TypePlaces<'_> {
    ghost made = { λ args t. instantiate t args.stand.subst };

    fn compare(&self, area: &[u8], operand: Entry, ty: TypeRef) -> PartialVMResult<bool> {
        let found = TypeRef {
            bytes: area,
            at: operand.start,
        };
        substitution_comparison::compare_instantiated(found, ty, *self)
    }
}

// Pops one operand and compares it with the type.
fn pop_one<F: Form>(
    area: &[u8],
    weight: usize,
    ty: TypeRef,
    form: &F,
    status: StatusCode,
) -> PartialVMResult<usize>
    requires { Stacked area.now weight }
    ensures { (p : TypeAt ty.entry.bytes.now ty.entry.at) → StepsTo (pop_one status (F.made form.now) p.type) area.now weight area.now result }
{
    let top = type_stack::pop(area, weight)?;
    if form.compare(area, top, ty)? {
        return Ok(top.start);
    }
    Err(status)
}

// Pops an operand for each of the types, the last first.
fn pop_places<F: Form>(
    area: &[u8],
    weight: usize,
    types: TypePlaces,
    form: &F,
    status: StatusCode,
) -> PartialVMResult<usize>
    requires { Stacked area.now weight }
    ensures { (p : Arguments types.entry.bytes.now types.entry.places.now) → StepsTo (pop_each status (F.made form.now) (reverse p.subst)) area.now weight area.now result }
{
    let mut below = weight;
    // by number, from which the invariant tells what is popped already
    for i in (0..types.places.len()).rev() {
        let ty = types.get(i).unwrap();
        below = pop_one(area, below, ty, form, status)?;
    }
    Ok(below)
}

// The work of `pop_each`: `places` has room for the places of the list's types.
fn pop_with<F: Form>(
    area: &[u8],
    weight: usize,
    list: SignatureView,
    form: &F,
    status: StatusCode,
    places: &mut [u16],
) -> PartialVMResult<usize>
    requires stacked { Stacked area.now weight }
    requires short { length list.types.bytes.now ≤ 65535 }
    requires count_in_bounds { list.types.count ≤ length places.old }
    ensures { PopsEach (F.made form.now) list.entry status area.now weight result }
{
    let placed = type_places::placed(list.types, places);
    pop_places(area, weight, placed, form, status)
}

// Pops an operand for each type of the list, the last first, and compares it with that type. The status is that of a mismatch. A table of
// places is zeroed before it is filled, so a short list, as most are, takes a short table, and an empty one none; an array, since no heap is used.
pub fn pop_each<F: Form>(
    area: &[u8],
    weight: usize,
    list: SignatureView,
    form: &F,
    status: StatusCode,
) -> PartialVMResult<usize>
    requires stacked { Stacked area.now weight }
    requires short { length list.types.bytes.now ≤ 65535 }
    ensures { PopsEach (F.made form.now) list.entry status area.now weight result }
{
    let n = list.types.count;
    if n == 0 {
        return Ok(weight);
    }
    if n <= 16 {
        let mut few = [0u16; 16];
        return pop_with(area, weight, list, form, status, &mut few);
    }
    let mut places = [0u16; 255];
    pop_with(area, weight, list, form, status, &mut places)
}

// `Ret`.
pub fn ret_step(area: &[u8], weight: usize, unit: &UnitView<'_, '_>) -> PartialVMResult<usize>
    requires { Stacked area.now weight }
    ensures { StepsTo (step.ret_step (compiled unit.now)) area.now weight area.now result }
{
    let returns = function_views::function_types(unit, FunctionTypes::Return);
    let status = StatusCode::RET_TYPE_MISMATCH_ERROR;
    let popped = pop_each(area, weight, returns, &Written, status);
    type_stack::rebuilt(popped)
}

// Whether `instantiate` makes a type of each of the list; if not, its refusal.
#[tactic(auto, using(crate::specs::Made::sizes))]
pub fn instantiates_each(list: SignatureView, args: TypePlaces) -> PartialVMResult<()>
    ensures { InstantiatesEach list.entry args.entry.bytes.now args.entry.places.now result }
{
    substitution::instantiated_sizes(list.types, args)?;
    Ok(())
}

// Weighs the pushes of the list's types, their parameters replaced: where they don't all fit, the refusal of the first that is refused,
// else the weight that the stack would have.
fn weigh_each(
    room: usize,
    weight: usize,
    list: SignatureView,
    args: TypePlaces,
) -> PartialVMResult<usize>
    requires { (weight ≤ room) × (room ≤ 65535) }
    ensures { WeighsEach room weight list.entry args.entry.bytes.now args.entry.places.now result }
{
    let bytes = list.types.bytes;
    let mut after = weight;
    let mut at = list.types.at;
    for _ in 0..list.types.count {
        let size = substitution::instantiated_size(TypeRef { bytes, at }, args)?;
        if room - after < size.len + 2 {
            return Err(StatusCode::NO_ROOM);
        }
        after += size.len + 2;
        at = size.next;
    }
    Ok(after)
}

// Writes the entries of the list's types, their parameters replaced, for which there is room. Answers the weight after them.
fn write_each(area: &mut [u8], weight: usize, list: SignatureView, args: TypePlaces) -> usize
    requires stacked { Stacked area.old weight }
    requires all_fit { AllFit (length area.old) weight list args.bytes.now args.places.now }
    ensures { PushesEach list.entry args.entry.bytes.now args.entry.places.now area.old weight area.new (Ok result) }
{
    let bytes = list.types.bytes;
    let mut after = weight;
    let mut at = list.types.at;
    for _ in 0..list.types.count {
        let ty = TypeRef { bytes, at };
        let written = substitution_writer::instantiate_into(&mut area[after..], ty, args);
        after = type_pushes::seal(area, after, written.end);
        at = written.next;
    }
    after
}

// Pushes the types of the list, their parameters replaced.
pub fn push_each(
    area: &mut [u8],
    weight: usize,
    list: SignatureView,
    args: TypePlaces,
) -> PartialVMResult<usize>
    requires { Stacked area.old weight }
    ensures { PushesEach list.entry args.entry.bytes.now args.entry.places.now area.old weight area.new result }
{
    weigh_each(area.len(), weight, list, args)?;
    Ok(write_each(area, weight, list, args))
}
