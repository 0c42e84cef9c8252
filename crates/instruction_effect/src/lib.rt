// What each instruction pops and pushes, as `instruction_effect` of stack_usage_verifier.rs tells it: by a table of the fixed effects, and by
// look-ups for the nine opcodes that have none.
#![tactic(auto)]

ghost use Rattle.std.specs.Prelude.{◌≡◌, true, ◌<◌};
ghost use Rattle.definitions.specs.Result.{◌>>?◌};
ghost use Rattle.definitions.specs.CompiledUnit.{function_handle_at, function_instantiation_at};
ghost use Rattle.definitions.specs.StackUsage.{call_effect, field_count_at, field_count_of_instantiation, instruction_effect};
ghost use Rattle.record_views.specs.Records.{instruction_of};
ghost use Rattle.unit_tables.specs.Answers.{told};
ghost use Rattle.unit_tables.specs.Compiled.{compiled};
ghost use Rattle.code_views.specs.Answers.{opcode_byte};
ghost use Rattle.handle_views.specs.Answers.{handle_of};
ghost use Rattle.instruction_effect.specs.Effects.{looks_up, EntryOf, EffectTable};
ghost use Rattle.instruction_effect.specs.Answers.{pops_and_pushes, InstructionEffectAt};

use file_format::{
    FunctionHandleIndex, FunctionInstantiationIndex, StructDefInstantiationIndex,
    StructDefinitionIndex,
};
use function_views::FunctionTypes;
use handle_views::FunctionHandle;
use numbers::wide64;
use record_views::{Fields, Instruction};
use status::PartialVMResult;
use unit_tables::UnitView;

// What an opcode pops and pushes. Once it is looked up it is a pair of u64, the Rust's `(num_pops, num_pushes)`.
#[derive(Clone, Copy)]
pub struct Effect(pub u8, pub u8);

// The mark in the pair of an opcode whose effect is looked up. No Option: document 01 asks for a table of pairs.
const LOOKED_UP: u8 = 0xFF;

// The effects of the opcodes 0 to 70. The table is made once for a block, since a constant is made anew wherever it is named.
const EFFECTS: [Effect; 71] = [
    Effect(1, 0), // Pop
    Effect(LOOKED_UP, LOOKED_UP), // Ret
    Effect(1, 0), // BrTrue
    Effect(1, 0), // BrFalse
    Effect(0, 0), // Branch
    Effect(0, 1), // LdU8
    Effect(0, 1), // LdU64
    Effect(0, 1), // LdU128
    Effect(1, 1), // CastU8
    Effect(1, 1), // CastU64
    Effect(1, 1), // CastU128
    Effect(0, 1), // LdConst
    Effect(0, 1), // LdTrue
    Effect(0, 1), // LdFalse
    Effect(0, 1), // CopyLoc
    Effect(0, 1), // MoveLoc
    Effect(1, 0), // StLoc
    Effect(LOOKED_UP, LOOKED_UP), // Call
    Effect(LOOKED_UP, LOOKED_UP), // CallGeneric
    Effect(LOOKED_UP, LOOKED_UP), // Pack
    Effect(LOOKED_UP, LOOKED_UP), // PackGeneric
    Effect(LOOKED_UP, LOOKED_UP), // Unpack
    Effect(LOOKED_UP, LOOKED_UP), // UnpackGeneric
    Effect(1, 1), // ReadRef
    Effect(2, 0), // WriteRef
    Effect(1, 1), // FreezeRef
    Effect(0, 1), // MutBorrowLoc
    Effect(0, 1), // ImmBorrowLoc
    Effect(1, 1), // MutBorrowField
    Effect(1, 1), // MutBorrowFieldGeneric
    Effect(1, 1), // ImmBorrowField
    Effect(1, 1), // ImmBorrowFieldGeneric
    Effect(1, 1), // MutBorrowGlobal
    Effect(1, 1), // MutBorrowGlobalGeneric
    Effect(1, 1), // ImmBorrowGlobal
    Effect(1, 1), // ImmBorrowGlobalGeneric
    Effect(2, 1), // Add
    Effect(2, 1), // Sub
    Effect(2, 1), // Mul
    Effect(2, 1), // Mod
    Effect(2, 1), // Div
    Effect(2, 1), // BitOr
    Effect(2, 1), // BitAnd
    Effect(2, 1), // Xor
    Effect(2, 1), // Or
    Effect(2, 1), // And
    Effect(1, 1), // Not
    Effect(2, 1), // Eq
    Effect(2, 1), // Neq
    Effect(2, 1), // Lt
    Effect(2, 1), // Gt
    Effect(2, 1), // Le
    Effect(2, 1), // Ge
    Effect(1, 0), // Abort
    Effect(0, 0), // Nop
    Effect(1, 1), // Exists
    Effect(1, 1), // ExistsGeneric
    Effect(1, 1), // MoveFrom
    Effect(1, 1), // MoveFromGeneric
    Effect(2, 0), // MoveTo
    Effect(2, 0), // MoveToGeneric
    Effect(2, 1), // Shl
    Effect(2, 1), // Shr
    Effect(LOOKED_UP, LOOKED_UP), // VecPack
    Effect(1, 1), // VecLen
    Effect(2, 1), // VecImmBorrow
    Effect(2, 1), // VecMutBorrow
    Effect(2, 0), // VecPushBack
    Effect(1, 1), // VecPopBack
    Effect(LOOKED_UP, LOOKED_UP), // VecUnpack
    Effect(3, 0), // VecSwap
];

// The table, with its rule: a constant has no contract of its own.
pub fn effects() -> [Effect; 71]
    ensures { EffectTable result }
{
    EFFECTS
}

// ── effects that are looked up ──

// A call pops its parameters and pushes its returns.
#[tactic(auto, using(crate::proofs::Looked::call_laws))]
fn call_effect(unit: &UnitView<'_, '_>, handle: FunctionHandle) -> PartialVMResult<(u64, u64)>
    ensures { told pops_and_pushes result ≡ call_effect (compiled unit.now) (handle_of handle) }
{
    let parameters = unit_views::signature_at(unit, handle.parameters)?;
    let returns = unit_views::signature_at(unit, handle.return_)?;
    let pops = wide64(parameters.types.count);
    let pushes = wide64(returns.types.count);
    Ok((pops, pushes))
}

// The effect of Call.
#[tactic(auto, using(crate::proofs::Looked::steps))]
fn call_effect_at(unit: &UnitView<'_, '_>, idx: FunctionHandleIndex) -> PartialVMResult<(u64, u64)>
    ensures { told pops_and_pushes result ≡ (function_handle_at (compiled unit.now) idx.0 >>? call_effect (compiled unit.now)) }
{
    let handle = handle_views::function_handle_at(unit, idx)?;
    call_effect(unit, handle)
}

// The effect of CallGeneric. Its type arguments are not looked up.
#[tactic(auto, using(crate::proofs::Looked::steps))]
fn call_generic_effect_at(
    unit: &UnitView<'_, '_>,
    idx: FunctionInstantiationIndex,
) -> PartialVMResult<(u64, u64)>
    ensures { told pops_and_pushes result ≡ (function_instantiation_at (compiled unit.now) idx.0 >>? λ inst. function_handle_at (compiled unit.now) inst.handle >>? call_effect (compiled unit.now)) }
{
    let inst = handle_views::function_instantiation_at(unit, idx)?;
    call_effect_at(unit, inst.handle)
}

// How many fields a struct has. A native struct counts none.
#[tactic(auto, using(crate::proofs::Looked::field_laws))]
fn field_count(unit: &UnitView<'_, '_>, idx: StructDefinitionIndex) -> PartialVMResult<u64>
    ensures { told (λ n. n) result ≡ field_count_at (compiled unit.now) idx.0 }
{
    let def = unit_views::struct_def_at(unit, idx)?;
    match def.fields {
        Fields::Native => Ok(0),
        Fields::Declared(list) => Ok(wide64(list.types.count)),
    }
}

// The same of an instantiated struct. Its type arguments are not looked up.
#[tactic(auto, using(crate::proofs::Looked::steps), unfolding(definitions::specs::StackUsage::field_count_of_instantiation))]
fn field_count_of_instantiation(
    unit: &UnitView<'_, '_>,
    idx: StructDefInstantiationIndex,
) -> PartialVMResult<u64>
    ensures { told (λ n. n) result ≡ field_count_of_instantiation (compiled unit.now) idx.0 }
{
    let inst = handle_views::struct_instantiation_at(unit, idx)?;
    field_count(unit, inst.def)
}

// What an instruction pops and pushes, one whose effect is looked up: by the opcode's number, as document 01 has it.
#[tactic(auto, using(crate::proofs::Looked::by_opcode))]
fn effect_by_opcode(
    unit: &UnitView<'_, '_>,
    instruction: Instruction,
) -> PartialVMResult<(u64, u64)>
    requires { looks_up instruction.opcode ≡ true }
    ensures { told pops_and_pushes result ≡ instruction_effect (compiled unit.now) (instruction_of instruction.opcode instruction.local instruction.operand instruction.count) }
{
    let x = instruction.operand;
    let n = instruction.count;
    match instruction.opcode {
        // Ret
        1 => {
            let returns = function_views::function_types(unit, FunctionTypes::Return);
            Ok((wide64(returns.types.count), 0))
        }
        // Call, CallGeneric
        17 => call_effect_at(unit, FunctionHandleIndex(x)),
        18 => call_generic_effect_at(unit, FunctionInstantiationIndex(x)),
        // Pack, PackGeneric: a struct is packed of its fields.
        19 => Ok((field_count(unit, StructDefinitionIndex(x))?, 1)),
        20 => Ok((
            field_count_of_instantiation(unit, StructDefInstantiationIndex(x))?,
            1,
        )),
        // Unpack, UnpackGeneric: and unpacked into them.
        21 => Ok((1, field_count(unit, StructDefinitionIndex(x))?)),
        22 => Ok((
            1,
            field_count_of_instantiation(unit, StructDefInstantiationIndex(x))?,
        )),
        // VecPack, VecUnpack
        63 => Ok((n, 1)),
        _ => Ok((1, n)),
    }
}

// The same of the i-th instruction.
#[tactic(auto, using(crate::proofs::Looked::looked_up))]
fn looked_up_effect(unit: &UnitView<'_, '_>, i: usize) -> PartialVMResult<(u64, u64)>
    requires i_lt_count { i < unit.now.view.code.count }
    requires i_value { looks_up (opcode_byte unit.now i) ≡ true }
    ensures { InstructionEffectAt (compiled unit.now) i result }
{
    effect_by_opcode(unit, code_views::instruction_at(unit, i))
}

// ── any instruction ──

// What the i-th instruction pops and pushes, the Rust's `(num_pops, num_pushes)`: the pair that the table has for its opcode, and only where that
// is marked by the whole instruction.
#[tactic(auto, using(crate::proofs::Looked::by_table))]
pub fn instruction_effect(
    pair: Effect,
    unit: &UnitView<'_, '_>,
    i: usize,
) -> PartialVMResult<(u64, u64)>
    requires i_lt_count { i < unit.now.view.code.count }
    requires entry_of { EntryOf (opcode_byte unit.now i) pair }
    ensures { InstructionEffectAt (compiled unit.now) i result }
{
    let Effect(pops, pushes) = pair;
    if pops == LOOKED_UP {
        return looked_up_effect(unit, i);
    }
    Ok((u64::from(pops), u64::from(pushes)))
}
