// The arms of `verify_instr` of type_safety.rs: which step an opcode's instruction takes. Opcodes that share a step share an arm, and so do those of a
// family that a small function of crate instructions tells apart.
#![tactic(auto)]

ghost use Rattle.std.specs.Prelude.{◌<◌};
ghost use Rattle.instruction_arms.specs.Arms.{InArm};

// An arm that stands for several opcodes names them.
#[derive(Clone, Copy)]
pub enum Arm {
    Pop,
    Ret,
    BrBool, // BrTrue, BrFalse
    Branch,
    LdInteger, // LdU8, LdU64, LdU128
    Cast, // CastU8, CastU64, CastU128
    LdConst,
    LdBool, // LdTrue, LdFalse
    CopyLoc,
    MoveLoc,
    StLoc,
    Call, // Call, CallGeneric
    Struct, // Pack, PackGeneric, Unpack, UnpackGeneric
    ReadRef,
    WriteRef,
    FreezeRef,
    BorrowLoc, // MutBorrowLoc, ImmBorrowLoc
    BorrowField, // MutBorrowField, MutBorrowFieldGeneric, ImmBorrowField, ImmBorrowFieldGeneric
    BorrowGlobal, // MutBorrowGlobal, MutBorrowGlobalGeneric, ImmBorrowGlobal, ImmBorrowGlobalGeneric
    Arithmetic, // Add to Xor
    Logical, // Or, And
    Not,
    Equality, // Eq, Neq
    Comparison, // Lt, Gt, Le, Ge
    Abort,
    Nop,
    Resource, // Exists to MoveToGeneric
    Shift, // Shl, Shr
    Vector, // VecPack to VecSwap
}

// The arm of an opcode. Single values, a line each, since the compiler makes one jump of them and of the decision over the arms. A range becomes
// comparisons in a row, which are slower where opcodes vary: two families alone are ranges, which have one step for all of their opcodes.
pub fn arm_of(opcode: u8) -> Arm
    requires { opcode < 71 }
    ensures { InArm result opcode }
{
    match opcode {
        0 => Arm::Pop, // Pop
        1 => Arm::Ret, // Ret
        2 => Arm::BrBool, // BrTrue
        3 => Arm::BrBool, // BrFalse
        4 => Arm::Branch, // Branch
        5 => Arm::LdInteger, // LdU8
        6 => Arm::LdInteger, // LdU64
        7 => Arm::LdInteger, // LdU128
        8 => Arm::Cast, // CastU8
        9 => Arm::Cast, // CastU64
        10 => Arm::Cast, // CastU128
        11 => Arm::LdConst, // LdConst
        12 => Arm::LdBool, // LdTrue
        13 => Arm::LdBool, // LdFalse
        14 => Arm::CopyLoc, // CopyLoc
        15 => Arm::MoveLoc, // MoveLoc
        16 => Arm::StLoc, // StLoc
        17 => Arm::Call, // Call
        18 => Arm::Call, // CallGeneric
        19 => Arm::Struct, // Pack
        20 => Arm::Struct, // PackGeneric
        21 => Arm::Struct, // Unpack
        22 => Arm::Struct, // UnpackGeneric
        23 => Arm::ReadRef, // ReadRef
        24 => Arm::WriteRef, // WriteRef
        25 => Arm::FreezeRef, // FreezeRef
        26 => Arm::BorrowLoc, // MutBorrowLoc
        27 => Arm::BorrowLoc, // ImmBorrowLoc
        28 => Arm::BorrowField, // MutBorrowField
        29 => Arm::BorrowField, // MutBorrowFieldGeneric
        30 => Arm::BorrowField, // ImmBorrowField
        31 => Arm::BorrowField, // ImmBorrowFieldGeneric
        32 => Arm::BorrowGlobal, // MutBorrowGlobal
        33 => Arm::BorrowGlobal, // MutBorrowGlobalGeneric
        34 => Arm::BorrowGlobal, // ImmBorrowGlobal
        35 => Arm::BorrowGlobal, // ImmBorrowGlobalGeneric
        36..=43 => Arm::Arithmetic, // Add to Xor
        44 => Arm::Logical, // Or
        45 => Arm::Logical, // And
        46 => Arm::Not, // Not
        47 => Arm::Equality, // Eq
        48 => Arm::Equality, // Neq
        49..=52 => Arm::Comparison, // Lt, Gt, Le, Ge
        53 => Arm::Abort, // Abort
        54 => Arm::Nop, // Nop
        55 => Arm::Resource, // Exists
        56 => Arm::Resource, // ExistsGeneric
        57 => Arm::Resource, // MoveFrom
        58 => Arm::Resource, // MoveFromGeneric
        59 => Arm::Resource, // MoveTo
        60 => Arm::Resource, // MoveToGeneric
        61 => Arm::Shift, // Shl
        62 => Arm::Shift, // Shr
        63 => Arm::Vector, // VecPack
        64 => Arm::Vector, // VecLen
        65 => Arm::Vector, // VecImmBorrow
        66 => Arm::Vector, // VecMutBorrow
        67 => Arm::Vector, // VecPushBack
        68 => Arm::Vector, // VecPopBack
        69 => Arm::Vector, // VecUnpack
        _ => Arm::Vector, // VecSwap
    }
}
