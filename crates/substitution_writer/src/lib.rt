// `instantiate` of type_safety.rs over a type's bytes, as a writer: the type with its parameters replaced is written into a lent slice that
// has room for it. That it has is asked of each function: of what is behind a `&mut` a ghost field says nothing.
#![tactic(auto)]

ghost use Rattle.std.specs.Prelude.{◌+◌, ◌≤◌, length};
ghost use Rattle.substitution.specs.Bytes.{Put};
ghost use Rattle.substitution.specs.Filling.{Room, Rooms, ArgumentRoom};
ghost use Rattle.substitution_writer.specs.Write.{ArgumentWritten, WroteFrom, WroteAllFrom, WroteAt};

use signature_token::{Token, TypeList, TypeRef};
use type_places::TypePlaces;

// Where a type ends among the bytes that it is read from, and where its bytes end that were written: a place, where `Size` of substitution has a
// number of bytes that stops at 65,536. One type for both would let them be exchanged.
#[derive(Clone, Copy)]
pub struct Reached {
    pub next: usize,
    pub end: usize,
}

// Writes the bytes into out at w. Answers where they end there. Out is lent whole with w beside it, and not its rest: where the bytes end is counted
// from its start.
#[tactic(auto, using(substitution::specs::Bytes::copied))]
fn put(out: &mut [u8], w: usize, bytes: &[u8]) -> usize
    requires { w + length bytes.now ≤ length out.old }
    ensures { Put out.old w bytes.now out.new result }
{
    let end = w + bytes.len();
    byte_parts::copy(&mut out[w..end], bytes);
    end
}

// Writes the argument into out at w.
#[tactic(auto, using(crate::specs::Write::argument_wrote))]
fn write_argument(out: &mut [u8], w: usize, argument: TypeRef) -> usize
    requires { ArgumentRoom argument.bytes.now argument.at w (length out.old) }
    ensures { ArgumentWritten argument.entry.bytes.now argument.entry.at w out.old out.new result }
{
    put(out, w, argument.encoded())
}

// Writes the type, its parameters replaced, into out at w.
#[cycle(write_type_write_types)]
#[tactic(auto, using(crate::specs::Write::leaf_wrote))]
fn write_type(out: &mut [u8], w: usize, ty: TypeRef, args: TypePlaces) -> Reached
    requires { Room ty.bytes.now ty.at args.bytes.now args.places.now w (length out.old) }
    ensures { WroteFrom ty.entry.bytes.now ty.entry.at args.entry.bytes.now args.entry.places.now w out.old out.new result }
{
    let bytes = ty.bytes;
    let at = ty.at;
    match ty.token() {
        Token::Leaf(command) => {
            out[w] = command;
            Reached {
                next: at + 1,
                end: w + 1,
            }
        }
        Token::Wrapped(_, inner) => {
            out[w] = bytes[at];
            write_type(out, w + 1, TypeRef { bytes, at: inner }, args)
        }
        Token::Struct(_) => Reached {
            next: at + 3,
            end: put(out, w, &bytes[at..at + 3]),
        },
        Token::StructInstantiation(_, count, first) => {
            let after = put(out, w, &bytes[at..at + 4]);
            let types = TypeList {
                bytes,
                at: first,
                count,
            };
            write_types(out, after, types, args)
        }
        Token::TypeParameter(i) => Reached {
            next: at + 3,
            end: write_argument(out, w, args.get(i).unwrap()),
        },
    }
}

// The same of the types of a list.
#[cycle(write_type_write_types)]
#[tactic(auto, using(crate::specs::Write::writing))]
fn write_types(out: &mut [u8], w: usize, types: TypeList, args: TypePlaces) -> Reached
    requires { Rooms types.bytes.now types.at types.count args.bytes.now args.places.now w (length out.old) }
    ensures { WroteAllFrom types.entry.bytes.now types.entry.at types.entry.count args.entry.bytes.now args.entry.places.now w out.old out.new result }
{
    let bytes = types.bytes;
    let mut at = types.at;
    let mut reached = w;
    for _ in 0..types.count {
        let one = write_type(out, reached, TypeRef { bytes, at }, args);
        at = one.next;
        reached = one.end;
    }
    Reached {
        next: at,
        end: reached,
    }
}

// `instantiate`: writes the type, its parameters replaced, to the front of out. A leaf is written at once, since most types are leaves: it saves
// the call into the walk.
#[tactic(auto, using(crate::specs::Write::wrote_at, crate::specs::Write::leaf_at_front))]
pub fn instantiate_into(out: &mut [u8], ty: TypeRef, args: TypePlaces) -> Reached
    requires { Room ty.bytes.now ty.at args.bytes.now args.places.now 0 (length out.old) }
    ensures { WroteAt ty.entry.bytes.now ty.entry.at args.entry.bytes.now args.entry.places.now out.old out.new result }
{
    let Token::Leaf(command) = ty.token() else {
        return write_type(out, 0, ty, args);
    };
    out[0] = command;
    Reached {
        next: ty.at + 1,
        end: 1,
    }
}
