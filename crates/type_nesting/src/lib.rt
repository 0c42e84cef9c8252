// How many levels a type nests, and the deepest type of a list. The passes do not ask: it shows that the definitions' depth is found from bytes.
#![tactic(auto)]

ghost use Rattle.type_nesting.specs.Nesting.{NestingAt, NestingsAt};

use signature_token::{Token, TypeList, TypeRef};

// How many levels the type nests, a leaf being one.
#[cycle(nesting_of_type_nesting_of_types)]
pub fn nesting_of_type(ty: TypeRef) -> usize
    ensures { NestingAt ty.entry.bytes.now ty.entry.at result }
{
    let bytes = ty.bytes;
    match ty.token() {
        Token::Leaf(_) => 1,
        Token::Wrapped(_, at) => nesting_of_type(TypeRef { bytes, at }) + 1,
        Token::Struct(_) => 1,
        Token::StructInstantiation(_, count, at) => {
            nesting_of_types(TypeList { bytes, at, count }) + 1
        }
        Token::TypeParameter(_) => 1,
    }
}

// How many levels the deepest of the types nests.
#[cycle(nesting_of_type_nesting_of_types)]
pub fn nesting_of_types(types: TypeList) -> usize
    ensures { NestingsAt types.entry.bytes.now types.entry.at types.entry.count result }
{
    let bytes = types.bytes;
    let mut at = types.at;
    let mut deepest = 0usize;
    for _ in 0..types.count {
        let next = TypeRef { bytes, at };
        deepest = deepest.max(nesting_of_type(next));
        at = next.end();
    }
    deepest
}
