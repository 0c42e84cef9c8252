// The steps of type_safety.rs that look nothing up in the unit and pop one operand: casts, Not, FreezeRef, and the operand that must be one
// leaf type. A step that only reads takes the area as `&[u8]`: what it pushes stands there already. Steps with two operands are pair_steps.
#![tactic(auto, using(type_stack::specs::Stepping::pops, crate::specs::Operands::operands), unfolding(definitions::specs::TypeSafety::pop_expecting, definitions::specs::TypeSafety::cast, definitions::specs::TypeSafety::negation, definitions::specs::TypeSafety::freeze_ref))]

ghost use Rattle.definitions.specs.Places.{TypeAt};
ghost use Rattle.definitions.specs.TypeSafety as step;
ghost use Rattle.signature_token.specs.Same.{Spans, SameAt};
ghost use Rattle.type_stack.specs.Held.{Stacked};
ghost use Rattle.type_stack.specs.Stepping.{StepsTo};
ghost use Rattle.type_tests.specs.Kinds.{ReferentAt, IntegerAt, LeafAt};
ghost use Rattle.operand_steps.specs.Leaves.{PopsLeaf, CastsTo};

use signature_token::{BOOL, REFERENCE, TypeRef};
use status::{PartialVMResult, StatusCode};
use type_stack::Entry;
use type_tests::Referent;

// What `type_tests` tells of an operand, which stands in the area. That a type stands there is asked of each call and not kept in `Entry`, since
// the next step may write the area.
pub fn is_integer(area: &[u8], operand: Entry) -> bool
    requires { TypeAt area.now operand.start }
    ensures { IntegerAt area.now operand.start result }
{
    type_tests::is_integer(TypeRef {
        bytes: area,
        at: operand.start,
    })
}

pub fn is_leaf(area: &[u8], operand: Entry, command: u8) -> bool
    requires { TypeAt area.now operand.start }
    ensures { LeafAt area.now operand.start command result }
{
    let ty = TypeRef {
        bytes: area,
        at: operand.start,
    };
    type_tests::is_leaf(ty, command)
}

pub fn referent_of(area: &[u8], operand: Entry) -> Referent
    requires { TypeAt area.now operand.start }
    ensures { ReferentAt area.now operand.start result }
{
    type_tests::referent_of(TypeRef {
        bytes: area,
        at: operand.start,
    })
}

// Whether two operands have the same type.
pub fn same_type(area: &[u8], operand: Entry, other: Entry) -> bool
    requires spans { Spans area.now operand.start operand.len }
    requires stands { TypeAt area.now other.start }
    ensures { SameAt area.now operand.start operand.len area.now other.start result }
{
    let ty = TypeRef {
        bytes: area,
        at: other.start,
    };
    type_tests::same_type(area, operand.start, operand.len, ty)
}

// Pops an operand that must be the leaf of that command: BrTrue, BrFalse, Abort, and the address of a global.
pub fn pop_leaf(
    area: &[u8],
    weight: usize,
    command: u8,
    status: StatusCode,
) -> PartialVMResult<usize>
    requires { Stacked area.now weight }
    ensures { PopsLeaf command status area.now weight result }
{
    let top = type_stack::pop(area, weight)?;
    if is_leaf(area, top, command) {
        return Ok(top.start);
    }
    Err(status)
}

// `CastU8`, `CastU64`, `CastU128`: command is that of the type pushed.
pub fn cast(area: &mut [u8], weight: usize, command: u8) -> PartialVMResult<usize>
    requires { Stacked area.old weight }
    ensures { CastsTo command area.old weight area.new result }
{
    let top = type_stack::pop(area, weight)?;
    if is_integer(area, top) {
        return type_pushes::push_leaf(area, top.start, command);
    }
    Err(StatusCode::INTEGER_OP_TYPE_MISMATCH_ERROR)
}

// `Not`.
pub fn negation(area: &[u8], weight: usize) -> PartialVMResult<usize>
    requires { Stacked area.now weight }
    ensures { StepsTo step.negation area.now weight area.now result }
{
    let top = type_stack::pop(area, weight)?;
    if is_leaf(area, top, BOOL) {
        return Ok(weight); // a bool is pushed where the operand stands
    }
    Err(StatusCode::BOOLEAN_OP_TYPE_MISMATCH_ERROR)
}

// `FreezeRef`.
pub fn freeze_ref(area: &mut [u8], weight: usize) -> PartialVMResult<usize>
    requires { Stacked area.old weight }
    ensures { StepsTo step.freeze_ref area.old weight area.new result }
{
    let top = type_stack::pop(area, weight)?;
    let Referent::MutableReference(_) = referent_of(area, top) else {
        return Err(StatusCode::FREEZEREF_TYPE_MISMATCH_ERROR);
    };
    type_pushes::push_retagged(area, top.start, REFERENCE, top.start + top.len)
}
