// The stack of types in the lent area: entries from the bottom up, each its type's bytes and then their length as a u16. A stack's
// weight is the number of its bytes. Here are the pops, and how a walk ends; the pushes are type_pushes and copied_pushes. A step answers the
// weight of the stack after it. That a stack stands in the area is asked of each step and not kept by a struct of the two: of what is behind a `&mut` a
// ghost field says nothing, and a struct for the steps that only read would be made anew for each.
#![tactic(auto)]

ghost use Rattle.std.specs.Prelude.{◌≡◌};
ghost use Rattle.type_stack.specs.Held.{Stacked};
ghost use Rattle.type_stack.specs.Tops.{TopOf, TopTwoOf};

use status::{PartialVMResult, StatusCode};

// An entry: its type's bytes stand from start on, and what is below it weighs start.
#[derive(Clone, Copy)]
pub struct Entry {
    pub start: usize,
    pub len: usize,
}

// Where a walk over instructions stops: the refusal, the instruction's offset, and the weight of the stack before it, which still stands and by
// which the promise speaks of it.
#[derive(Clone, Copy)]
pub struct Stopped {
    pub status: StatusCode,
    pub offset: usize,
    pub weight: usize,
}

// How a walk over instructions ends: the weight of the stack after the last, or where it stops.
pub type Walk = Result<usize, Stopped>;

// The same answer, made anew from its parts. For a step that gives the answer of another function as its own: a copy of an
// answer as a whole, just after its parts were written, takes longer than a short step does.
pub fn rebuilt(answer: PartialVMResult<usize>) -> PartialVMResult<usize>
    ensures { result ≡ answer }
{
    match answer {
        Ok(weight) => Ok(weight),
        Err(status) => Err(status),
    }
}

// `stack.pop().unwrap()`: the top entry. What is left is the stack that weighs its start.
#[tactic(auto, using(crate::specs::Tops::top_laws))]
pub fn pop(area: &[u8], weight: usize) -> PartialVMResult<Entry>
    requires { Stacked area.now weight }
    ensures { TopOf area.now weight result }
{
    if weight == 0 {
        return Err(StatusCode::EMPTY_STACK);
    }
    let len = usize::from(u16::from_le_bytes([area[weight - 2], area[weight - 1]]));
    Ok(Entry {
        start: weight - 2 - len,
        len,
    })
}

// Two pops: the top entry, and the one below it.
#[tactic(auto, using(crate::specs::Tops::pop_laws))]
pub fn pop_two(area: &[u8], weight: usize) -> PartialVMResult<(Entry, Entry)>
    requires { Stacked area.now weight }
    ensures { TopTwoOf area.now weight result }
{
    let top = pop(area, weight)?;
    let below = pop(area, top.start)?;
    Ok((top, below))
}
