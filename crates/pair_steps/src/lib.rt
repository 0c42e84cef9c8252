// The steps of type_safety.rs that look nothing up in the unit and pop two operands: arithmetic, shifts, Or and And, comparisons. A step that
// only reads takes the area as `&[u8]`: what it pushes stands there already.
#![tactic(auto, using(type_stack::specs::Stepping::pops, operand_steps::specs::Operands::operands), unfolding(definitions::specs::TypeSafety::arithmetic, definitions::specs::TypeSafety::shift, definitions::specs::TypeSafety::logical, definitions::specs::TypeSafety::comparison))]

ghost use Rattle.definitions.specs.Places.{TypeAt};
ghost use Rattle.definitions.specs.TypeSafety as step;
ghost use Rattle.signature_token.specs.Same.{Spans};
ghost use Rattle.type_stack.specs.Held.{Stacked};
ghost use Rattle.type_stack.specs.Stepping.{StepsTo};
ghost use Rattle.pair_steps.specs.Integers.{SameIntegers};

use operand_steps::{is_integer, is_leaf, same_type};
use signature_token::{BOOL, U8};
use status::{PartialVMResult, StatusCode};
use type_stack::Entry;

// Whether two operands are integers of one type. That types stand there is asked, as in operand_steps, since the next step may write the area.
fn same_integers(area: &[u8], operand1: Entry, operand2: Entry) -> bool
    requires spans { Spans area.now operand1.start operand1.len }
    requires stands { TypeAt area.now operand2.start }
    ensures { SameIntegers area.now operand1.start operand1.len operand2.start result }
{
    is_integer(area, operand1) && same_type(area, operand1, operand2)
}

// `Add` to `Xor`.
pub fn arithmetic(area: &[u8], weight: usize) -> PartialVMResult<usize>
    requires { Stacked area.now weight }
    ensures { StepsTo step.arithmetic area.now weight area.now result }
{
    let (operand1, operand2) = type_stack::pop_two(area, weight)?;
    if same_integers(area, operand1, operand2) {
        return Ok(operand1.start); // operand1 is pushed where operand2, its equal, stands
    }
    Err(StatusCode::INTEGER_OP_TYPE_MISMATCH_ERROR)
}

// `Shl`, `Shr`.
pub fn shift(area: &[u8], weight: usize) -> PartialVMResult<usize>
    requires { Stacked area.now weight }
    ensures { StepsTo step.shift area.now weight area.now result }
{
    let (operand1, operand2) = type_stack::pop_two(area, weight)?;
    if is_integer(area, operand2) {
        if is_leaf(area, operand1, U8) {
            return Ok(operand1.start); // operand2 is pushed where it stands
        }
    }
    Err(StatusCode::INTEGER_OP_TYPE_MISMATCH_ERROR)
}

// `Or`, `And`.
pub fn logical(area: &[u8], weight: usize) -> PartialVMResult<usize>
    requires { Stacked area.now weight }
    ensures { StepsTo step.logical area.now weight area.now result }
{
    let (operand1, operand2) = type_stack::pop_two(area, weight)?;
    if is_leaf(area, operand1, BOOL) {
        if is_leaf(area, operand2, BOOL) {
            return Ok(operand1.start); // a bool is pushed where operand2 stands
        }
    }
    Err(StatusCode::BOOLEAN_OP_TYPE_MISMATCH_ERROR)
}

// `Lt`, `Gt`, `Le`, `Ge`.
pub fn comparison(area: &mut [u8], weight: usize) -> PartialVMResult<usize>
    requires { Stacked area.old weight }
    ensures { StepsTo step.comparison area.old weight area.new result }
{
    let (operand1, operand2) = type_stack::pop_two(area, weight)?;
    if same_integers(area, operand1, operand2) {
        return type_pushes::push_leaf(area, operand2.start, BOOL);
    }
    Err(StatusCode::INTEGER_OP_TYPE_MISMATCH_ERROR)
}
