// One record's body or one type, read from bytes of which nothing is known. Each function answers what the reader of the definitions answers
// at that position, for every input: where the next byte is, or the refusal and its byte. The value that stands there is not kept: what a
// pass needs of it is read again at its place. The bytes and the position are two parameters: nothing holds of them that a value could keep.
#![tactic(auto)]

ghost use Rattle.std.specs.Prelude.{◌≡◌, ◌+◌, ◌≤◌, ◌<◌, List, length, get_or, IfOk, MatchResult};
ghost use Rattle.definitions.specs.SignatureToken.{Signature};
ghost use Rattle.definitions.specs.CompiledUnit.{Head};
ghost use Rattle.definitions.specs.Commands.{commands_of};
ghost use Rattle.definitions.specs.Reading.{skip};
ghost use Rattle.definitions.specs.Reader.{type_within, types, byte_up_to, struct_handle, struct_definition, signature_of, function_view};
ghost use Rattle.status.specs.declared.StatusCode.TheVariants.{SHORT};
ghost use Rattle.record_reader.specs.ReadTo.{read_to};
ghost use Rattle.record_reader.specs.Bodies.{counted, pair, body_of, type_shape, PlainEnd};

use numbers::number_at;
use status::StatusCode;
use type_commands::{plain_width, wraps};

// Why reading ends, and the byte that this is about.
#[derive(Clone, Copy)]
pub struct ReadError {
    pub status: StatusCode,
    pub at: usize,
}

// What follows a type's command: nothing, a type, a u16, or a u16 with a list of types; or the byte is no command, which one match tells with the
// others, so that it is a variant and no Option. Not `Shape` of signature_token, which has no byte that opens nothing, and tells a vector from references.
#[derive(Clone, Copy)]
enum TypeShape {
    Leaf,
    Over,
    Index,
    Instantiation,
    Unknown,
}

// A byte is missing: the unit's length is where it would stand.
fn short(s: &[u8]) -> ReadError
    ensures { result ≡ record { status = SHORT; at = length s.now } }
{
    ReadError {
        status: StatusCode::SHORT,
        at: s.len(),
    }
}

// The byte at `at`.
pub fn byte_at(s: &[u8], at: usize) -> Result<u8, ReadError>
    ensures { MatchResult result
        (λ byte. (at < length s.now) × (byte ≡ get_or s.now at 0))
        (λ error. (length s.now ≤ at) × (error ≡ record { status = SHORT; at = length s.now })) }
{
    s.get(at).copied().ok_or(short(s))
}

// `count` bytes that are not looked at.
#[tactic(auto, using(crate::specs::Walk::skipping))]
pub fn skip_bytes(s: &[u8], at: usize, count: usize) -> Result<usize, ReadError>
    ensures value { result ≡ read_to (skip count s.now at) }
    ensures in_bounds { IfOk result (λ end. (end ≡ at + count) × (end ≤ length s.now)) }
{
    if s.len() < at || s.len() - at < count {
        return Err(short(s));
    }
    Ok(at + count)
}

// ── types ──

// What a byte opens as a type's command. One comparison after the other and no match, which would become a jump through a table.
fn type_shape(command: u8) -> TypeShape
    ensures { result ≡ type_shape command }
{
    if command < 0x01 {
        return TypeShape::Unknown;
    }
    if command < 0x07 {
        return TypeShape::Leaf;
    }
    if command < 0x08 {
        return TypeShape::Over;
    }
    if command < 0x09 {
        return TypeShape::Index;
    }
    if command < 0x0A {
        return TypeShape::Instantiation;
    }
    if command < 0x0C {
        return TypeShape::Over;
    }
    if command < 0x0D {
        return TypeShape::Index;
    }
    TypeShape::Unknown
}

// Where the type at `at` ends, if it is plain or one command stands around a plain one; None where that is not found out here: the unit may
// end inside such a type, or too few levels be allowed. Which of these types it is changes only what is added. `plain_end` of TypeRef tests
// neither, since its type stands there.
#[tactic(auto, using(crate::proofs::Types::plain_read))]
fn plain_end(s: &[u8], at: usize, levels: u8) -> Option<usize>
    ensures { PlainEnd s.now at levels result }
{
    if s.len() <= at || s.len() - at < 5 || levels < 2 {
        return None;
    }
    let p = at + wraps(s[at]);
    let width = plain_width(s[p]);
    if width == 0 {
        return None;
    }
    Some(p + width)
}

// A type of at most so many levels. Most types are plain or wrapped once, and pass here; the others are left to a function that calls this one
// again.
#[cycle(read_any_type_read_type_read_types_within)]
fn read_type(s: &[u8], at: usize, levels: u8) -> Result<usize, ReadError>
    ensures { (head : Head) → result ≡ read_to (type_within (commands_of head) levels s.now at) }
{
    if let Some(end) = plain_end(s, at, levels) {
        return Ok(end);
    }
    read_any_type(s, at, levels)
}

// The same, whatever the type is. One turn of the loop for each vector or reference around it.
#[tactic(auto, using(crate::proofs::Types::walking))]
#[cycle(read_any_type_read_type_read_types_within)]
fn read_any_type(s: &[u8], at: usize, levels: u8) -> Result<usize, ReadError>
    ensures { (head : Head) → result ≡ read_to (type_within (commands_of head) levels s.now at) }
{
    let mut left = levels;
    for p in at..s.len() {
        if left == 0 {
            return Err(ReadError {
                status: StatusCode::DEPTH,
                at: p,
            });
        }
        match type_shape(s[p]) {
            TypeShape::Leaf => {
                return Ok(p + 1);
            }
            TypeShape::Over => {
                left -= 1;
            }
            TypeShape::Index => {
                return skip_bytes(s, p + 1, 2);
            }
            TypeShape::Instantiation => {
                let arguments = skip_bytes(s, p + 1, 2)?;
                return read_types_within(s, arguments, left - 1);
            }
            TypeShape::Unknown => {
                return Err(ReadError {
                    status: StatusCode::COMMAND,
                    at: p,
                });
            }
        }
    }
    Err(short(s))
}

// u8 count, and that many types of at most so many levels.
#[tactic(auto, using(crate::specs::Walk::counting))]
#[cycle(read_any_type_read_type_read_types_within)]
fn read_types_within(s: &[u8], at: usize, levels: u8) -> Result<usize, ReadError>
    ensures { (head : Head) → result ≡ read_to (counted (type_within (commands_of head) levels) s.now at) }
{
    let count = byte_at(s, at)?;
    let mut next = at + 1;
    for _i in 0..count {
        next = read_type(s, next, levels)?;
    }
    Ok(next)
}

// `11`: u8 count, types.
#[tactic(auto, using(crate::proofs::Records::types_to))]
fn read_types(s: &[u8], at: usize) -> Result<usize, ReadError>
    ensures { (head : Head) → result ≡ read_to (types (commands_of head) s.now at) }
{
    read_types_within(s, at, 32)
}

// ── records, after their command ──

// A byte of at most `most`.
#[tactic(auto, using(crate::proofs::Records::judging))]
fn read_byte_up_to(s: &[u8], at: usize, most: u8) -> Result<usize, ReadError>
    ensures value { result ≡ read_to (byte_up_to most s.now at) }
    ensures in_bounds { IfOk result (λ end. at < length s.now) }
{
    let byte = byte_at(s, at)?;
    if most < byte {
        return Err(ReadError {
            status: StatusCode::VALUE,
            at: at,
        });
    }
    Ok(at + 1)
}

// u8 count, and that many bytes of at most `most`. Not one function with `read_types_within` over what is read: that one is in a cycle of calls,
// whose measures are given function by function.
#[tactic(auto, using(crate::specs::Walk::counting))]
fn read_bytes_up_to(s: &[u8], at: usize, most: u8) -> Result<usize, ReadError>
    ensures { result ≡ read_to (counted (byte_up_to most) s.now at) }
{
    let count = byte_at(s, at)?;
    let mut next = at + 1;
    for _i in 0..count {
        next = read_byte_up_to(s, next, most)?;
    }
    Ok(next)
}

// `10`: ability byte, u8 count, phantom bytes.
#[tactic(auto, using(crate::proofs::Records::handle_to))]
fn read_struct_handle(s: &[u8], at: usize) -> Result<usize, ReadError>
    ensures { result ≡ read_to (struct_handle s.now at) }
{
    let parameters = read_byte_up_to(s, at, 15)?;
    read_bytes_up_to(s, parameters, 1)
}

// `12`, `13`, `15`, `16`, `17` and `1A`: two u16.
#[tactic(auto, using(crate::proofs::Records::pair_to))]
fn read_pair(s: &[u8], at: usize) -> Result<usize, ReadError>
    ensures { result ≡ read_to (pair s.now at) }
{
    skip_bytes(s, at, 4)
}

// `14`: u16 handle, kind, and the fields of a declared one.
#[tactic(auto, using(crate::proofs::Records::definition_to))]
fn read_struct_definition(s: &[u8], at: usize) -> Result<usize, ReadError>
    ensures { (head : Head) → result ≡ read_to (struct_definition (commands_of head) s.now at) }
{
    let kind = skip_bytes(s, at, 2)?;
    let fields = read_byte_up_to(s, kind, 1)?;
    if s[kind] == 0 {
        return Ok(fields);
    }
    read_types(s, fields)
}

// The index of one of so many signatures.
#[tactic(auto, using(crate::proofs::Records::signature_to))]
fn read_signature_index(s: &[u8], at: usize, signatures: usize) -> Result<usize, ReadError>
    ensures { (l : List Signature) → length l ≡ signatures → result ≡ read_to (signature_of l s.now at) }
{
    let next = skip_bytes(s, at, 2)?;
    if signatures <= number_at(s, at) {
        return Err(ReadError {
            status: StatusCode::VALUE,
            at: at,
        });
    }
    Ok(next)
}

// `19`: parameters, return and locals, each one of so many signatures; u8 count, ability bytes.
#[tactic(auto, using(crate::proofs::Records::function_to))]
pub fn read_function(s: &[u8], at: usize, signatures: usize) -> Result<usize, ReadError>
    ensures { (l : List Signature) → length l ≡ signatures → result ≡ read_to (function_view l s.now at) }
{
    let at_return = read_signature_index(s, at, signatures)?;
    let at_locals = read_signature_index(s, at_return, signatures)?;
    let at_abilities = read_signature_index(s, at_locals, signatures)?;
    read_bytes_up_to(s, at_abilities, 15)
}

// The body of a record of a table, by its command.
#[tactic(auto, using(crate::proofs::Records::body_to))]
pub fn read_body(s: &[u8], at: usize, command: u8) -> Result<usize, ReadError>
    ensures { (head : Head) → result ≡ read_to (body_of (commands_of head) command s.now at) }
{
    match command {
        0x10 => read_struct_handle(s, at),
        0x11 => read_types(s, at),
        0x14 => read_struct_definition(s, at),
        0x18 => read_type(s, at, 32),
        _ => read_pair(s, at),
    }
}
