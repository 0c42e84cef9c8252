// What stands in a record or an instruction of a unit that was read, at a place that the reader's index has: read again, without a scan.
#![tactic(auto)]

ghost use Rattle.std.specs.Prelude.{◌≡◌, ◌+◌, ◌<◌, length};
ghost use Rattle.record_reader.specs.Apart.{number_of};
ghost use Rattle.record_views.specs.Records.{ListAt, ListHere, ListIs, DefAt, InstructionHere, InstructionIs, DefIs, FieldsIn};

use file_format::StructHandleIndex;
use numbers::u16_at;
use signature_token::{SignatureView, TypeList};

// `StructFieldInformation`: the Rust's two variants, so no Option.
#[derive(Clone, Copy)]
pub enum Fields<'a> {
    Native,
    Declared(SignatureView<'a>),
}

#[derive(Clone, Copy)]
pub struct StructDef<'a> {
    pub handle: StructHandleIndex,
    pub fields: Fields<'a>,
}

// An instruction: its opcode, the local or the table index after it, and how many elements. What the opcode does not take has any value. No enum of
// operands, which would be a decision over the opcode before the one that picks the step.
#[derive(Clone, Copy)]
pub struct Instruction {
    pub opcode: u8,
    pub local: u8,
    pub operand: u16,
    pub count: u64,
}

// The u64 at `at`: eight indices, since a slice would be made an array by a test of its length.
fn u64_at(s: &[u8], at: usize) -> u64
    requires { at + 7 < length s.now }
    ensures { result ≡ number_of 8 s.now at }
{
    u64::from_le_bytes([
        s[at],
        s[at + 1],
        s[at + 2],
        s[at + 3],
        s[at + 4],
        s[at + 5],
        s[at + 6],
        s[at + 7],
    ])
}

// Where the first type stands of a list whose count stands at `at`, and how many there are. Two numbers, and no `TypeList`: it may be asked where it is
// not known that a list was read.
pub fn type_list(s: &[u8], at: usize) -> (usize, usize)
    requires { at < length s.now }
    ensures { ListAt s.now at result }
{
    (at + 1, usize::from(s[at]))
}

// The list of types that was read at `at`: a signature's, or a declared struct's fields.
pub fn signature_at(s: &[u8], at: usize) -> SignatureView<'_>
    requires { ListHere s.now at }
    ensures are { (p : ListHere s.now at) → ListIs p.types result }
    ensures in_bytes { result.types.bytes.now ≡ s.now }
{
    let (first, count) = type_list(s, at);
    SignatureView {
        types: TypeList {
            bytes: s,
            at: first,
            count,
        },
    }
}

// The struct definition whose command stands at `at`.
pub fn struct_def_at(s: &[u8], at: usize) -> StructDef<'_>
    requires at_in_bounds { at + 3 < length s.now }
    requires def_at { DefAt s.now at }
    ensures is { (p : DefAt s.now at) → DefIs p.def result }
    ensures in_bytes { FieldsIn s.now result.fields }
{
    StructDef {
        handle: StructHandleIndex(u16_at(s, at + 1)),
        fields: if s[at + 3] == 0 {
            Fields::Native
        } else {
            Fields::Declared(signature_at(s, at + 4))
        },
    }
}

// The instruction whose opcode stands at `at`, fewer than 11 bytes before the end. What follows is read as each kind of operand for which it is long
// enough.
fn instruction_near_end(s: &[u8], at: usize) -> Instruction
    requires { InstructionHere s.now at × (length s.now < at + 11) }
    ensures { (p : InstructionHere s.now at) → InstructionIs p result }
{
    let left = s.len() - at;
    Instruction {
        opcode: s[at],
        local: s.get(at + 1).copied().unwrap_or(0),
        operand: if 2 < left { u16_at(s, at + 1) } else { 0 },
        count: 0,
    }
}

// The instruction whose opcode stands at `at`. Where 10 bytes follow the opcode, as many as VecPack's operands take, they
// are read as each kind of operand that is kept, with no decision over the opcode: that is left to whoever uses them.
pub fn instruction_at(s: &[u8], at: usize) -> Instruction
    requires { InstructionHere s.now at }
    ensures { (p : InstructionHere s.now at) → InstructionIs p result }
{
    if 10 < s.len() - at {
        return Instruction {
            opcode: s[at],
            local: s[at + 1],
            operand: u16_at(s, at + 1),
            count: u64_at(s, at + 3),
        };
    }
    instruction_near_end(s, at)
}
