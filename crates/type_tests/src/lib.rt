// What a step asks of an operand's type: whether it is the same as another, what it refers to, and whether it is an integer or a given leaf.
#![tactic(auto)]

ghost use Rattle.signature_token.specs.Same.{Spans, SameAt};
ghost use Rattle.type_tests.specs.Kinds.{ReferentAt, IntegerAt, LeafAt};

use signature_token::{Token, TypeRef, Wrapper};

// Whether the type of len bytes at x of a is that one. Where that one ends is not asked: bytes begin with one type at most. By place and length, as an
// entry of the stack has them, and as the steps' promises speak of it.
#[tactic(auto, using(signature_token::specs::Kept::within, signature_token::specs::Same::same_starts))]
pub fn same_type(a: &[u8], x: usize, len: usize, ty: TypeRef) -> bool
    requires { Spans a.now x len }
    ensures { SameAt a.now x len ty.entry.bytes.now ty.entry.at result }
{
    ty.bytes[ty.at..].starts_with(&a[x..x + len])
}

// What a type refers to: where that stands, by which kind of reference; or that it is no reference. Not an Option of a pair: document 01 asks for
// an enum to be matched by `let .. else`.
#[derive(Clone, Copy)]
pub enum Referent {
    Reference(usize),
    MutableReference(usize),
    Value,
}

// The type as a reference.
pub fn referent_of(ty: TypeRef) -> Referent
    ensures { ReferentAt ty.entry.bytes.now ty.entry.at result }
{
    match ty.token() {
        Token::Wrapped(Wrapper::Reference, inner) => Referent::Reference(inner),
        Token::Wrapped(Wrapper::MutableReference, inner) => Referent::MutableReference(inner),
        _ => Referent::Value,
    }
}

// Whether the type is u8, u64 or u128: document 01's commands 2, 3 and 4.
pub fn is_integer(ty: TypeRef) -> bool
    ensures { IntegerAt ty.entry.bytes.now ty.entry.at result }
{
    match ty.token() {
        Token::Leaf(command) => 2 <= command && command < 5,
        _ => false,
    }
}

// Whether the type is the leaf of that command.
pub fn is_leaf(ty: TypeRef, command: u8) -> bool
    ensures { LeafAt ty.entry.bytes.now ty.entry.at command result }
{
    match ty.token() {
        Token::Leaf(found) => found == command,
        _ => false,
    }
}
