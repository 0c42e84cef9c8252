// `materialize_type` of type_safety.rs over bytes: a struct with its type arguments, which is measured, written into a lent slice and compared
// with a type that stands elsewhere.
#![tactic(auto)]

ghost use Rattle.std.specs.Prelude.{◌≡◌, ◌+◌, ◌-◌, ◌≤◌, ◌<◌, length};
ghost use Rattle.definitions.specs.Places.{TypesAt, EndOfTypes};
ghost use Rattle.definitions.specs.SignatureToken.{encode, encode_all, same};
ghost use Rattle.signature_token.specs.Same.{Spans};
ghost use Rattle.substitution.specs.Bytes.{over};
ghost use Rattle.materialize_type.specs.Materialize.{IsCommand, IsLength, MaterializedSize, EndOfTypes-prop};

use file_format::StructHandleIndex;
use signature_token::SignatureView;

// The command of a struct with n arguments, document 01's 9 or, without any, 8, and its operands. Where there are none the last byte does not count: an array has one length, and how many
// count is `command_length`. That n fits a byte is proved.
#[tactic(auto, using(crate::proofs::Materialize::command_none, crate::proofs::Materialize::command_some))]
fn struct_command(h: StructHandleIndex, n: usize) -> [u8; 4]
    requires { n < 256 }
    ensures { IsCommand h.0 n result }
{
    let [low, high] = h.0.to_le_bytes();
    let command = if n == 0 { 8 } else { 9 };
    [command, low, high, n as u8]
}

#[tactic(auto, using(crate::proofs::Materialize::length_none, crate::proofs::Materialize::length_some))]
fn command_length(n: usize) -> usize
    ensures { IsLength n result }
{
    if n == 0 { 3 } else { 4 }
}

// The size of a struct with the n type arguments that stand from `first` to `end`. Three numbers, and no `MaterializedType`: it may be asked where it is
// not known that types stand there.
pub fn materialized_size(first: usize, n: usize, end: usize) -> usize
    requires { (first ≤ end) × (end - first + 4 < 18446744073709551616) }
    ensures { MaterializedSize first n end result }
{
    command_length(n) + (end - first)
}

// A struct with its type arguments. Where they end is kept, since it is asked more than once and found by a walk.
#[derive(Clone, Copy)]
pub struct MaterializedType<'a> {
    pub struct_handle: StructHandleIndex,
    pub type_args: SignatureView<'a>,
    pub end: usize,
    pub ghost ends: { EndOfTypes type_args.types.bytes.now type_args.types.at type_args.types.count end } by { EndOfTypes-prop type_args.types.bytes.now type_args.types.at type_args.types.count end },
}

impl<'a> MaterializedType<'a> {
    ghost use Rattle.materialize_type.specs.Materialize.{materialized};
    ghost use Rattle.materialize_type.specs.Materialized.{type_of};

    // `materialize_type`.
    pub fn new(
        struct_handle: StructHandleIndex,
        type_args: SignatureView<'a>,
    ) -> MaterializedType<'a>
        ensures made { (q : TypesAt type_args.entry.types.bytes.now type_args.entry.types.at type_args.entry.types.count) → type_of result ≡ materialized struct_handle.0 q.types }
        ensures bytes { result.type_args.types.bytes.now ≡ type_args.entry.types.bytes.now }
    {
        MaterializedType {
            struct_handle,
            type_args,
            end: type_args.types.end(),
        }
    }

    // The bytes of its arguments. Where there are none, nothing says that their place is within the bytes.
    fn arguments(self) -> &'a [u8]
        ensures { result.now ≡ encode_all self.entry.type_args.types.stand.types }
    {
        if self.type_args.types.count == 0 {
            return &[];
        }
        &self.type_args.types.bytes[self.type_args.types.at..self.end]
    }

    // How many bytes it has.
    pub fn size(self) -> usize
        ensures { result ≡ length (encode (type_of self.entry)) }
    {
        materialized_size(
            self.type_args.types.at,
            self.type_args.types.count,
            self.end,
        )
    }

    // Writes it to the front of out.
    #[tactic(auto, using(crate::proofs::Materialize::head))]
    pub fn write_to(self, out: &mut [u8])
        requires { length (encode (type_of self)) ≤ length out.old }
        ensures { out.new ≡ over (encode (type_of self.entry)) out.old }
    {
        let command = struct_command(self.struct_handle, self.type_args.types.count);
        let k = command_length(self.type_args.types.count);
        let args = self.arguments();
        byte_parts::copy(&mut out[..k], &command[..k]);
        byte_parts::copy(&mut out[k..k + args.len()], args);
    }

    // `==`: whether it is the type of len bytes at x of s, by place and length as `struct_is` of made_types has them. Lengths first, since most that
    // differ differ there.
    #[tactic(auto, using(crate::proofs::Materialize::head))]
    pub fn is_at(self, s: &[u8], x: usize, len: usize) -> bool
        requires { Spans s.now x len }
        ensures { (p : Spans s.now x len) → result ≡ same p.type (type_of self.entry) }
    {
        let k = command_length(self.type_args.types.count);
        let args = self.arguments();
        if len != k + args.len() {
            return false;
        }
        let command = struct_command(self.struct_handle, self.type_args.types.count);
        s[x..].starts_with(&command[..k]) && s[x + k..].starts_with(args)
    }
}
