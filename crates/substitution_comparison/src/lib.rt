// `instantiate` of type_safety.rs over a type's bytes, and `==`: the type with its parameters replaced is compared with a type that stands
// elsewhere, without being written.
#![tactic(auto)]

ghost use Rattle.std.specs.Prelude.{◌≤◌, ◌<◌, length};
ghost use Rattle.substitution_comparison.specs.Matching.{PartMatched, ArgumentMatched, FirstMatched, SameFilled};
ghost use Rattle.substitution_comparison.specs.Compare.{ComparedAt};

use signature_token::{Token, TypeList, TypeRef};
use status::PartialVMResult;
use type_places::TypePlaces;

// What is known after a part of the type was found in the other bytes: where it ends there, where the next type stands, and how many types are left. That
// the place is within the bytes is asked of each turn, since the bytes and a place in them are two values of the loop.
#[derive(Clone, Copy)]
struct Match {
    reached: usize,
    next: usize,
    left: usize,
}

// The match of the part with the bytes at e of s, if they are the same. `next` and `left` are those of the answer.
#[tactic(auto, using(crate::specs::Matching::parts))]
fn match_part(s: &[u8], e: usize, part: &[u8], next: usize, left: usize) -> Option<Match>
    requires { e ≤ length s.now }
    ensures { PartMatched s.now e part.now next left result }
{
    if !s[e..].starts_with(part) {
        return None;
    }
    Some(Match {
        reached: e + part.len(),
        next,
        left,
    })
}

// The same of the argument that takes a parameter's place.
#[tactic(auto, using(crate::specs::Matching::argument_matched))]
fn match_argument(s: &[u8], e: usize, argument: TypeRef, next: usize, left: usize) -> Option<Match>
    requires { e ≤ length s.now }
    ensures { ArgumentMatched s.now e argument.entry.bytes.now argument.entry.at next left result }
{
    match_part(s, e, argument.encoded(), next, left)
}

// The same of the first of the types that are left: its own bytes, or those of the argument. What is inside it is left in its place. There is
// no match where a parameter's number is past the arguments.
fn match_first(s: &[u8], e: usize, types: TypeList, args: TypePlaces) -> Option<Match>
    requires e_in_bounds { e ≤ length s.now }
    requires some_left { 0 < types.count }
    ensures { FirstMatched s.now e types.entry.bytes.now types.entry.at types.entry.count args.entry.bytes.now args.entry.places.now result }
{
    let bytes = types.bytes;
    let at = types.at;
    let left = types.count;
    match (TypeRef { bytes, at }).token() {
        Token::Leaf(_) => match_part(s, e, &bytes[at..at + 1], at + 1, left - 1),
        Token::Wrapped(_, inner) => match_part(s, e, &bytes[at..at + 1], inner, left),
        Token::Struct(_) => match_part(s, e, &bytes[at..at + 3], at + 3, left - 1),
        Token::StructInstantiation(_, count, first) => {
            match_part(s, e, &bytes[at..at + 4], first, left - 1 + count)
        }
        Token::TypeParameter(i) => match_argument(s, e, args.get(i)?, at + 3, left - 1),
    }
}

// Whether the type that was found is the other one, its parameters replaced. There is no such type where a parameter's number is past the
// arguments. Where the first ends is not asked: bytes begin with one type at most. How many types are left rises and falls, which no `for` counts.
#[tactic(auto, using(crate::specs::Matching::agreed_no))]
fn same_instantiated(found: TypeRef, ty: TypeRef, args: TypePlaces) -> bool
    ensures { SameFilled found.entry.bytes.now found.entry.at ty.entry.bytes.now ty.entry.at args.entry.bytes.now args.entry.places.now result }
{
    let bytes = ty.bytes;
    let mut e = found.at;
    let mut at = ty.at;
    let mut left = 1usize;
    while 0 < left {
        let types = TypeList {
            bytes,
            at,
            count: left,
        };
        let Some(matched) = match_first(found.bytes, e, types, args) else {
            return false;
        };
        e = matched.reached;
        at = matched.next;
        left = matched.left;
    }
    true
}

// `compare_instantiated` by walks. Where the bytes differ, a second walk tells whether a parameter's number is past the arguments.
#[tactic(auto, using(crate::specs::Compare::walked))]
fn compare_walked(found: TypeRef, ty: TypeRef, args: TypePlaces) -> PartialVMResult<bool>
    ensures { ComparedAt found.entry.bytes.now found.entry.at ty.entry.bytes.now ty.entry.at args.entry.bytes.now args.entry.places.now result }
{
    if same_instantiated(found, ty, args) {
        return Ok(true);
    }
    substitution::instantiated_size(ty, args)?;
    Ok(false)
}

// `instantiate` and `==`: whether the type that was found is the other one, its parameters replaced. A parameter's number past the arguments
// comes first. A leaf is compared at once, since most types are leaves: it saves the calls into the walks.
#[tactic(auto, using(crate::specs::Compare::leaf_compared))]
pub fn compare_instantiated(found: TypeRef, ty: TypeRef, args: TypePlaces) -> PartialVMResult<bool>
    ensures { ComparedAt found.entry.bytes.now found.entry.at ty.entry.bytes.now ty.entry.at args.entry.bytes.now args.entry.places.now result }
{
    let Token::Leaf(command) = ty.token() else {
        return compare_walked(found, ty, args);
    };
    Ok(found.bytes[found.at] == command)
}
