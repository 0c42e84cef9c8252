// One instruction, read from bytes of which nothing is known, by a table of how many bytes follow each opcode. The functions answer what the
// reader of the definitions answers at that position, for every input. The instruction is not kept: a pass reads it again at its place.
#![tactic(auto)]

ghost use Rattle.std.specs.Prelude.{◌≡◌};
ghost use Rattle.definitions.specs.CompiledUnit.{Head};
ghost use Rattle.definitions.specs.Commands.{commands_of};
ghost use Rattle.definitions.specs.Reader.{instruction};
ghost use Rattle.record_reader.specs.ReadTo.{read_to};
ghost use Rattle.instruction_reader.specs.Widths.{WidthTable};

use record_reader::{ReadError, byte_at, skip_bytes};
use status::StatusCode;

// How many bytes follow each opcode.
const OPERAND_WIDTHS: [u8; 71] = [
    0, // Pop
    0, // Ret
    2, // BrTrue
    2, // BrFalse
    2, // Branch
    1, // LdU8
    8, // LdU64
    16, // LdU128
    0, // CastU8
    0, // CastU64
    0, // CastU128
    2, // LdConst
    0, // LdTrue
    0, // LdFalse
    1, // CopyLoc
    1, // MoveLoc
    1, // StLoc
    2, // Call
    2, // CallGeneric
    2, // Pack
    2, // PackGeneric
    2, // Unpack
    2, // UnpackGeneric
    0, // ReadRef
    0, // WriteRef
    0, // FreezeRef
    1, // MutBorrowLoc
    1, // ImmBorrowLoc
    2, // MutBorrowField
    2, // MutBorrowFieldGeneric
    2, // ImmBorrowField
    2, // ImmBorrowFieldGeneric
    2, // MutBorrowGlobal
    2, // MutBorrowGlobalGeneric
    2, // ImmBorrowGlobal
    2, // ImmBorrowGlobalGeneric
    0, // Add
    0, // Sub
    0, // Mul
    0, // Mod
    0, // Div
    0, // BitOr
    0, // BitAnd
    0, // Xor
    0, // Or
    0, // And
    0, // Not
    0, // Eq
    0, // Neq
    0, // Lt
    0, // Gt
    0, // Le
    0, // Ge
    0, // Abort
    0, // Nop
    2, // Exists
    2, // ExistsGeneric
    2, // MoveFrom
    2, // MoveFromGeneric
    2, // MoveTo
    2, // MoveToGeneric
    0, // Shl
    0, // Shr
    10, // VecPack
    2, // VecLen
    2, // VecImmBorrow
    2, // VecMutBorrow
    2, // VecPushBack
    2, // VecPopBack
    10, // VecUnpack
    2, // VecSwap
];

// The table, to be made once by a caller that reads many instructions: a constant is made anew wherever it is indexed.
pub fn operand_widths() -> [u8; 71]
    ensures { WidthTable result }
{
    OPERAND_WIDTHS
}

// An opcode and its operands.
#[tactic(auto, using(crate::proofs::Instructions::decoding))]
pub fn read_instruction(s: &[u8], at: usize, widths: &[u8]) -> Result<usize, ReadError>
    requires { WidthTable widths.now }
    ensures { (head : Head) → result ≡ read_to (instruction (commands_of head) s.now at) }
{
    let opcode = byte_at(s, at)?;
    if 71 <= opcode {
        return Err(ReadError {
            status: StatusCode::COMMAND,
            at: at,
        });
    }
    let width = usize::from(widths[usize::from(opcode)]);
    skip_bytes(s, at + 1, width)
}
