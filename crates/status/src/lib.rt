// What a call answers: document 01's verdicts, as enums, with the number, the letter and the place that it prints for each.
#![tactic(auto)]

ghost use Rattle.std.specs.Prelude.{◌≡◌};
ghost use Rattle.status.specs.Verdict.{status_number, number_of, letter_of, place_of, refusal};

use std::fmt;

// Why a unit is refused. Numbers 1 to 13 are document 01's own names, 14 to 46 those of the Rust's `StatusCode`.
#[derive(Clone, Copy)]
pub enum StatusCode {
    TOO_LONG = 1,
    SHORT = 2,
    COMMAND = 3,
    ORDER = 4,
    VALUE = 5,
    DEPTH = 6,
    BLOCK = 7,
    TRAILING = 8,
    AREA = 9,
    EMPTY_STACK = 10,
    OUT_OF_TABLE = 11,
    NO_ROOM = 12,
    HEIGHT = 13,
    NEGATIVE_STACK_SIZE_WITHIN_BLOCK = 14,
    POSITIVE_STACK_SIZE_AT_BLOCK_END = 15,
    INVALID_OPERATION_IN_SCRIPT = 16,
    VERIFIER_INVARIANT_VIOLATION = 17,
    BORROWFIELD_TYPE_MISMATCH_ERROR = 18,
    BORROWFIELD_BAD_FIELD_ERROR = 19,
    BORROWLOC_REFERENCE_ERROR = 20,
    BORROWGLOBAL_TYPE_MISMATCH_ERROR = 21,
    BORROWGLOBAL_WITHOUT_KEY_ABILITY = 22,
    CALL_TYPE_MISMATCH_ERROR = 23,
    PACK_TYPE_MISMATCH_ERROR = 24,
    UNPACK_TYPE_MISMATCH_ERROR = 25,
    EXISTS_WITHOUT_KEY_ABILITY_OR_BAD_ARGUMENT = 26,
    MOVEFROM_WITHOUT_KEY_ABILITY = 27,
    MOVEFROM_TYPE_MISMATCH_ERROR = 28,
    MOVETO_WITHOUT_KEY_ABILITY = 29,
    MOVETO_TYPE_MISMATCH_ERROR = 30,
    TYPE_MISMATCH = 31,
    POP_WITHOUT_DROP_ABILITY = 32,
    BR_TYPE_MISMATCH_ERROR = 33,
    STLOC_TYPE_MISMATCH_ERROR = 34,
    ABORT_TYPE_MISMATCH_ERROR = 35,
    RET_TYPE_MISMATCH_ERROR = 36,
    FREEZEREF_TYPE_MISMATCH_ERROR = 37,
    COPYLOC_WITHOUT_COPY_ABILITY = 38,
    READREF_WITHOUT_COPY_ABILITY = 39,
    READREF_TYPE_MISMATCH_ERROR = 40,
    WRITEREF_NO_MUTABLE_REFERENCE_ERROR = 41,
    WRITEREF_WITHOUT_DROP_ABILITY = 42,
    WRITEREF_TYPE_MISMATCH_ERROR = 43,
    INTEGER_OP_TYPE_MISMATCH_ERROR = 44,
    BOOLEAN_OP_TYPE_MISMATCH_ERROR = 45,
    EQUALITY_OP_TYPE_MISMATCH_ERROR = 46,
}

// `PartialVMResult` of errors.rs, without its message and sub-status: a value, or the status of a refusal.
pub type PartialVMResult<T> = Result<T, StatusCode>;

// What a verdict is about: a byte of the unit, the first instruction of a block, an instruction, or nothing, which has its own letter in what is
// printed, so that it is a variant and no Option.
#[derive(Clone, Copy)]
pub enum Position {
    Byte(u16),
    BlockStart(u16),
    Instruction(u16),
    None,
}

// The answer of each public call. Not a Result: that a unit is refused is no failure of the call, and both answers are printed and packed alike.
#[derive(Clone, Copy)]
pub enum Verdict {
    Accepted,
    Refused(StatusCode, Position),
}

impl StatusCode {
    // Document 01's number of a refusal. Its own name and no `From`, since a verdict has a number too, among others.
    pub fn number(self) -> u8
        ensures { result ≡ status_number self }
    {
        self as u8
    }
}

impl Verdict {
    // The first thing that document 01 prints of a verdict.
    pub fn number(self) -> u8
        ensures { result ≡ number_of self }
    {
        match self {
            Verdict::Accepted => 0,
            Verdict::Refused(status, _) => status.number(),
        }
    }

    // The second: b, k, i or n.
    pub fn letter(self) -> u8
        ensures { result ≡ letter_of self }
    {
        match self {
            Verdict::Accepted => b'n',
            Verdict::Refused(_, Position::Byte(_)) => b'b',
            Verdict::Refused(_, Position::BlockStart(_)) => b'k',
            Verdict::Refused(_, Position::Instruction(_)) => b'i',
            Verdict::Refused(_, Position::None) => b'n',
        }
    }

    // The third.
    pub fn place(self) -> u16
        ensures { result ≡ place_of self }
    {
        match self {
            Verdict::Accepted => 0,
            Verdict::Refused(_, Position::Byte(at)) => at,
            Verdict::Refused(_, Position::BlockStart(at)) => at,
            Verdict::Refused(_, Position::Instruction(at)) => at,
            Verdict::Refused(_, Position::None) => 0,
        }
    }
}

// As document 01 prints a verdict: number, letter and position.
impl fmt::Display for Verdict {
    fn fmt<W: fmt::Write>(&self, f: &mut fmt::Formatter<W>) -> fmt::Result {
        let number = self.number();
        let letter = char::from(self.letter());
        let place = self.place();
        write!(f, "{number} {letter} {place}")
    }
}

// The refusal of a pass at a block or an instruction. Two statuses carry no code offset in the Rust.
#[tactic(auto, unfolding(crate::specs::Verdict::refusal))]
pub fn refusal_at(status: StatusCode, position: Position) -> Verdict
    ensures { result ≡ refusal status position }
{
    match status {
        StatusCode::INVALID_OPERATION_IN_SCRIPT => Verdict::Refused(status, Position::None),
        StatusCode::VERIFIER_INVARIANT_VIOLATION => Verdict::Refused(status, Position::None),
        _ => Verdict::Refused(status, position),
    }
}
