// What the steps over vectors ask of an operand: whether it is a vector of a type of the unit, and whether it refers to one.
#![tactic(auto)]

ghost use Rattle.signature_token.specs.Same.{Spans};
ghost use Rattle.vector_elements.specs.Elements.{VectorElementAt, ElementTypeAt, VectorIs, ElementIs};

use signature_token::{Token, TypeRef, Wrapper};
use type_stack::Entry;
use type_tests::Referent;

// Where the element of the type stands, if that is a vector.
fn vector_element(ty: TypeRef) -> Option<usize>
    ensures { VectorElementAt ty.entry.bytes.now ty.entry.at result }
{
    match ty.token() {
        Token::Wrapped(Wrapper::Vector, inner) => Some(inner),
        _ => None,
    }
}

// Where the element of the vector stands that the type refers to; with mut_ref_only a `&mut` alone refers.
#[tactic(auto, using(crate::specs::Elements::referents))]
fn get_vector_element_type(ty: TypeRef, mut_ref_only: bool) -> Option<usize>
    ensures { ElementTypeAt ty.entry.bytes.now ty.entry.at mut_ref_only result }
{
    match type_tests::referent_of(ty) {
        Referent::Reference(inner) => {
            if mut_ref_only {
                return None;
            }
            vector_element(TypeRef {
                bytes: ty.bytes,
                at: inner,
            })
        }
        Referent::MutableReference(inner) => vector_element(TypeRef {
            bytes: ty.bytes,
            at: inner,
        }),
        Referent::Value => None,
    }
}

// Whether the operand is a vector of the declared type.
#[tactic(auto, using(crate::specs::Elements::vectors))]
pub fn vector_is(area: &[u8], operand: Entry, declared: TypeRef) -> bool
    requires { Spans area.now operand.start operand.len }
    ensures { VectorIs area.now operand.start operand.len declared.entry.bytes.now declared.entry.at result }
{
    let vector = TypeRef {
        bytes: area,
        at: operand.start,
    };
    match vector_element(vector) {
        Some(x) => type_tests::same_type(area, x, operand.len - 1, declared),
        None => false,
    }
}

// Whether the operand refers to a vector of the declared type. Its own function beside `vector_is`: another function finds the element, and two
// bytes stand before it, not one. One function for both would take these two as parameters, and be `same_type` where there is an element.
#[tactic(auto, using(crate::specs::Elements::elements))]
pub fn element_is(area: &[u8], operand: Entry, declared: TypeRef, mut_ref_only: bool) -> bool
    requires { Spans area.now operand.start operand.len }
    ensures { ElementIs area.now operand.start operand.len declared.entry.bytes.now declared.entry.at mut_ref_only result }
{
    let reference = TypeRef {
        bytes: area,
        at: operand.start,
    };
    match get_vector_element_type(reference, mut_ref_only) {
        Some(x) => type_tests::same_type(area, x, operand.len - 2, declared),
        None => false,
    }
}
