// A type taken apart at its first command, its bytes, and where types end. `token` is the one place in the passes that takes a type apart; where the
// commands alone tell its end, nothing is taken apart, and `type_commands` counts its bytes. The reader, which meets bytes that open no type,
// has its own.
#![tactic(auto)]

ghost use Rattle.std.specs.Prelude.{◌≡◌, ◌≤◌, ◌<◌, length};
ghost use Rattle.definitions.specs.Places.{TypeAt, TypesAt, EndOfType, EndOfTypes};
ghost use Rattle.signature_token.specs.Encoded.{Encoded};
ghost use Rattle.signature_token.specs.Token.{shape_of, TokenAt, HasFew};
ghost use Rattle.signature_token.specs.Plain.{PlainEnd};
ghost use Rattle.signature_token.specs.Standing.{TypeAt-prop, TypesAt-prop};

use file_format::StructHandleIndex;
use numbers::{number_at, u16_at};
use type_commands::{plain_width, wraps};

// Commands of types, as document 01's table of them has them: those that steps name.
pub const BOOL: u8 = 0x01;

pub const U8: u8 = 0x02;

pub const U64: u8 = 0x03;

pub const ADDRESS: u8 = 0x05;

pub const SIGNER: u8 = 0x06;

pub const VECTOR: u8 = 0x07;

pub const REFERENCE: u8 = 0x0A;

// What a type's command opens.
#[derive(Clone, Copy)]
enum Shape {
    Leaf,
    Vector,
    Struct,
    StructInstantiation,
    Reference,
    MutableReference,
    TypeParameter,
}

// What stands around a type in a type of two levels or more.
#[derive(Clone, Copy)]
pub enum Wrapper {
    Vector,
    Reference,
    MutableReference,
}

// A type taken apart: its command where it is a leaf; what is around it and where the inner type stands; a handle; a handle, how many
// arguments and where the first stands; a parameter's number. A leaf stays a command, since that is what is compared and pushed; what is inside stays a
// place, since whoever asked has the bytes, and an answer without them is shorter.
#[derive(Clone, Copy)]
pub enum Token {
    Leaf(u8),
    Wrapped(Wrapper, usize),
    Struct(StructHandleIndex),
    StructInstantiation(StructHandleIndex, usize, usize),
    TypeParameter(usize),
}

// The shape that a command opens; a byte that opens none counts as a leaf, and does not stand in a unit that was read. One comparison after
// the other, leaves first, and no match: a match becomes a jump through a table, which costs more than all of them where it is not foreseen.
fn shape_of(command: u8) -> Shape
    ensures { result ≡ shape_of command }
{
    if command < 7 {
        return Shape::Leaf;
    }
    if command < 8 {
        return Shape::Vector;
    }
    if command < 9 {
        return Shape::Struct;
    }
    if command < 10 {
        return Shape::StructInstantiation;
    }
    if command < 11 {
        return Shape::Reference;
    }
    if command < 12 {
        return Shape::MutableReference;
    }
    if command < 13 {
        return Shape::TypeParameter;
    }
    Shape::Leaf
}

// A type that stands at a place of some bytes: a unit's, or the area's. By place, and not the slice from there on, since the contracts speak of places.
// Its end is not kept, since finding it is a walk and many never ask. It is written as a literal where it is needed, of an operand too, since a proof
// computes with the parts of a literal, where of a function's answer it knows equations.
#[derive(Clone, Copy)]
pub struct TypeRef<'a> {
    pub bytes: &'a [u8],
    pub at: usize,
    pub ghost stands: { TypeAt bytes.now at } by { TypeAt-prop bytes.now at },
}

// Types that stand there one after the other.
#[derive(Clone, Copy)]
pub struct TypeList<'a> {
    pub bytes: &'a [u8],
    pub at: usize,
    pub count: usize,
    pub ghost stand: { TypesAt bytes.now at count } by { TypesAt-prop bytes.now at count },
}

// Types with a count that is a byte: a `Signature`'s, a declared struct's fields, or a struct's type arguments. That they stand in at most 65,535 bytes, as
// those of a unit do, is asked by those who keep their places in 16 bits or push them. `struct_is`, `instantiates_each` and `push_each` take longer
// ones too, so that a field for it would ask more of their callers.
#[derive(Clone, Copy)]
pub struct SignatureView<'a> {
    pub types: TypeList<'a>,
    pub ghost few: { types.count < 256 },
}

impl<'a> TypeRef<'a> {
    // The type, taken apart.
    #[tactic(auto, using(crate::specs::Kept::token_laws))]
    pub fn token(self) -> Token
        ensures is { TokenAt self.entry.bytes.now self.entry.at result }
        ensures few { HasFew result }
    {
        let s = self.bytes;
        let at = self.at;
        let command = s[at];
        match shape_of(command) {
            Shape::Leaf => Token::Leaf(command),
            Shape::Vector => Token::Wrapped(Wrapper::Vector, at + 1),
            Shape::Struct => Token::Struct(StructHandleIndex(u16_at(s, at + 1))),
            Shape::StructInstantiation => Token::StructInstantiation(
                StructHandleIndex(u16_at(s, at + 1)),
                usize::from(s[at + 3]),
                at + 4,
            ),
            Shape::Reference => Token::Wrapped(Wrapper::Reference, at + 1),
            Shape::MutableReference => Token::Wrapped(Wrapper::MutableReference, at + 1),
            Shape::TypeParameter => Token::TypeParameter(number_at(s, at + 1)),
        }
    }

    // Its end, if it is plain or one command stands around a plain one. Which of these types it is changes only what is added.
    #[tactic(auto, using(crate::specs::Kept::plain_laws))]
    fn plain_end(self) -> Option<usize>
        ensures { PlainEnd self.entry.bytes.now self.entry.at result }
    {
        let s = self.bytes;
        let p = self.at + wraps(s[self.at]);
        let width = plain_width(s[p]);
        if width == 0 {
            return None;
        }
        Some(p + width)
    }

    // Its end. Leaves are told by one decision, since in code that repeats itself that is foreseen; the others that are plain or wrapped once by
    // sums; and only what is left is walked.
    #[tactic(auto, using(crate::specs::Kept::end_laws))]
    pub fn end(self) -> usize
        ensures { EndOfType self.entry.bytes.now self.entry.at result }
    {
        let s = self.bytes;
        let at = self.at;
        if s[at] < VECTOR {
            return at + 1;
        }
        if let Some(end) = self.plain_end() {
            return end;
        }
        TypeList {
            bytes: s,
            at,
            count: 1,
        }
        .end()
    }

    // Its bytes.
    #[tactic(auto, using(crate::specs::Encoded::type_bytes))]
    pub fn encoded(self) -> &'a [u8]
        ensures is { Encoded self.entry.bytes.now self.entry.at result.now }
        ensures short { length result.now ≤ length self.entry.bytes.now }
    {
        &self.bytes[self.at..self.end()]
    }
}

impl TypeList<'_> {
    // The end of the last. A type inside another is passed as one more of those that are left, so that nothing calls itself; their number
    // rises and falls, which no `for` counts. substitution and substitution_comparison walk so too, each in its own loop: an iterator for the three
    // would need a law of what the commands that are left give, and that is another thing in each.
    pub fn end(self) -> usize
        ensures { EndOfTypes self.entry.bytes.now self.entry.at self.entry.count result }
    {
        let s = self.bytes;
        let mut p = self.at;
        let mut left = self.count;
        while 0 < left {
            match (TypeRef { bytes: s, at: p }).token() {
                Token::Leaf(_) => {
                    p += 1;
                    left -= 1;
                }
                Token::Wrapped(_, inner) => {
                    p = inner;
                }
                Token::StructInstantiation(_, k, first) => {
                    p = first;
                    left = left - 1 + k;
                }
                Token::Struct(_) | Token::TypeParameter(_) => {
                    p += 3;
                    left -= 1;
                }
            }
        }
        p
    }
}
