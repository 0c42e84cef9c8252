// `instantiate` of type_safety.rs over a type's bytes, as a size: how many bytes a type has whose parameters are replaced. It may be longer
// than any area, so it is never built to be measured or compared. As a writer it is substitution_writer, as a comparison
// substitution_comparison. The arguments are types by their places.
#![tactic(auto)]

ghost use Rattle.std.specs.Prelude.{◌+◌, ◌≤◌, ◌<◌};
ghost use Rattle.substitution.specs.Size.{Grown, ArgumentSize, SizeAt, SizesAt};

use signature_token::{Token, TypeList, TypeRef};
use status::{PartialVMResult, StatusCode};
use type_places::TypePlaces;

// Where a type ends, and how many bytes it has with its parameters replaced: 65,536 stands for any number over 65,535, more than an area
// holds. Not an Option of a length: a long type is compared with the room like any other.
#[derive(Clone, Copy)]
pub struct Size {
    pub next: usize,
    pub len: usize,
}

// A length with more bytes added.
fn grown(len: usize, more: usize) -> usize
    requires { len + more < 18446744073709551616 }
    ensures { Grown len more result }
{
    (len + more).min(65536)
}

// len and the bytes of the argument, which is not walked where len alone is over 65,535.
fn size_of_argument(argument: TypeRef, len: usize) -> usize
    requires { len ≤ 65536 }
    ensures { ArgumentSize argument.entry.bytes.now argument.entry.at len result }
{
    if 65535 < len {
        return 65536;
    }
    grown(len, argument.end() - argument.at)
}

// `instantiate`, which has the type and its arguments as two parameters too: the size of the types together, their parameters replaced. A parameter's number past the arguments is refused. A type inside
// another is counted as one more of those that are left, so that nothing calls itself; their number rises and falls, which no `for` counts.
#[tactic(auto, using(crate::specs::Counting::counted_done))]
pub fn instantiated_sizes(types: TypeList, args: TypePlaces) -> PartialVMResult<Size>
    ensures { SizesAt types.entry.bytes.now types.entry.at types.entry.count args.entry.bytes.now args.entry.places.now result }
{
    let bytes = types.bytes;
    let mut at = types.at;
    let mut left = types.count;
    let mut len = 0;
    while 0 < left {
        match (TypeRef { bytes, at }).token() {
            Token::Leaf(_) => {
                at += 1;
                left -= 1;
                len = grown(len, 1);
            }
            Token::Wrapped(_, inner) => {
                at = inner;
                len = grown(len, 1);
            }
            Token::Struct(_) => {
                at += 3;
                left -= 1;
                len = grown(len, 3);
            }
            Token::StructInstantiation(_, count, first) => {
                at = first;
                left = left - 1 + count;
                len = grown(len, 4);
            }
            Token::TypeParameter(i) => {
                let argument = args.get(i).ok_or(StatusCode::OUT_OF_TABLE)?;
                at += 3;
                left -= 1;
                len = size_of_argument(argument, len);
            }
        }
    }
    Ok(Size { next: at, len })
}

// The same of one type. A leaf has its own way, since most types are leaves: it saves the call into the walk.
#[tactic(auto, using(crate::specs::Size::one_size, signature_token::specs::Passing::one_type))]
pub fn instantiated_size(ty: TypeRef, args: TypePlaces) -> PartialVMResult<Size>
    ensures { SizeAt ty.entry.bytes.now ty.entry.at args.entry.bytes.now args.entry.places.now result }
{
    let Token::Leaf(_) = ty.token() else {
        return instantiated_sizes(
            TypeList {
                bytes: ty.bytes,
                at: ty.at,
                count: 1,
            },
            args,
        );
    };
    Ok(Size {
        next: ty.at + 1,
        len: 1,
    })
}
