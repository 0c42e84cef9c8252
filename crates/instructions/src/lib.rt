// `verify_instr` of type_safety.rs: one decision over the opcode's arm picks the step. An instruction that names a table takes its operand as an
// index of that table here; the effects that are looked up (crate instruction_effect) do so too. A family's function decides once more, by the
// opcode's number in document 01, which asks for such small functions. An opcode stays the number
// that the unit has: an enum of 71 would be made of it by 71 arms, and taken apart once by as many, where `Arm` has the 29 that differ. `Between` says
// which opcodes a family's function is called for.
#![tactic(auto, using(crate::specs::Does::key_does, step_views::specs::Looked::few_bytes), unfolding(record_views::specs::Records::instruction_of, definitions::specs::TypeSafety::verify_instr))]

ghost use Rattle.std.specs.Prelude.{◌≡◌, ◌+◌, ◌<◌};
ghost use Rattle.type_stack.specs.Held.{Stacked};
ghost use Rattle.unit_tables.specs.Compiled.{compiled};
ghost use Rattle.instructions.specs.Does.{Does, DoesAt, Between};

use file_format::{
    ConstantPoolIndex, FieldHandleIndex, FieldInstantiationIndex, FunctionHandleIndex,
    FunctionInstantiationIndex, LocalIndex, SignatureIndex, StructDefInstantiationIndex,
    StructDefinitionIndex,
};
use instruction_arms::Arm;
use local_steps::{copy_loc, ld_const, move_loc, st_loc};
use locals::Locals;
use operand_steps::pop_leaf;
use record_views::Instruction;
use signature_token::{BOOL, U8, U64};
use status::{PartialVMResult, StatusCode};
use step_views::{generic_struct, plain_struct};
use unit_tables::UnitView;

// The commands of u8, u64 and u128, in this order.
fn integer_type(k: u8) -> u8
    requires { k < 3 }
    ensures { result ≡ 2 + k }
{
    U8 + k
}

// MutBorrowLoc, ImmBorrowLoc.
fn borrow_loc_instr(
    area: &mut [u8],
    weight: usize,
    locals: &Locals<'_>,
    instruction: Instruction,
) -> PartialVMResult<usize>
    requires stacked { Stacked area.old weight }
    requires between { Between 26 27 instruction }
    ensures { Does (compiled locals.now.unit) instruction area.old weight area.new result }
{
    let opcode = instruction.opcode;
    let idx = LocalIndex(instruction.local);
    let mutable = opcode == 26;
    reference_steps::borrow_loc(area, weight, locals, mutable, idx)
}

// Call, CallGeneric.
fn call_instr(
    area: &mut [u8],
    weight: usize,
    unit: &UnitView<'_, '_>,
    instruction: Instruction,
) -> PartialVMResult<usize>
    requires stacked { Stacked area.old weight }
    requires between { Between 17 18 instruction }
    ensures { Does (compiled unit.now) instruction area.old weight area.new result }
{
    let opcode = instruction.opcode;
    let x = instruction.operand;
    match opcode {
        17 => call_steps::function_call(area, weight, unit, FunctionHandleIndex(x)), // Call
        _ => { // CallGeneric
            let inst = FunctionInstantiationIndex(x);
            call_steps::function_call_generic(area, weight, unit, inst)
        }
    }
}

// Pack, PackGeneric, Unpack, UnpackGeneric.
fn struct_instr(
    area: &mut [u8],
    weight: usize,
    unit: &UnitView<'_, '_>,
    instruction: Instruction,
) -> PartialVMResult<usize>
    requires stacked { Stacked area.old weight }
    requires between { Between 19 22 instruction }
    ensures { Does (compiled unit.now) instruction area.old weight area.new result }
{
    let opcode = instruction.opcode;
    let def = StructDefinitionIndex(instruction.operand);
    let inst = StructDefInstantiationIndex(instruction.operand);
    match opcode {
        19 => struct_steps::pack(area, weight, plain_struct(unit, def)), // Pack
        20 => struct_steps::pack(area, weight, generic_struct(unit, inst)), // PackGeneric
        21 => struct_steps::unpack(area, weight, plain_struct(unit, def)), // Unpack
        _ => struct_steps::unpack(area, weight, generic_struct(unit, inst)), // UnpackGeneric
    }
}

// The borrows of a field.
fn field_instr(
    area: &mut [u8],
    weight: usize,
    unit: &UnitView<'_, '_>,
    instruction: Instruction,
) -> PartialVMResult<usize>
    requires stacked { Stacked area.old weight }
    requires between { Between 28 31 instruction }
    ensures { Does (compiled unit.now) instruction area.old weight area.new result }
{
    let opcode = instruction.opcode;
    let handle = FieldHandleIndex(instruction.operand);
    let inst = FieldInstantiationIndex(instruction.operand);
    let none = unit_views::no_types(unit);
    match opcode {
        28 => field_steps::borrow_field(area, weight, unit, true, handle, none), // MutBorrowField
        29 => field_steps::borrow_field_generic(area, weight, unit, true, inst), // MutBorrowFieldGeneric
        30 => field_steps::borrow_field(area, weight, unit, false, handle, none), // ImmBorrowField
        _ => field_steps::borrow_field_generic(area, weight, unit, false, inst), // ImmBorrowFieldGeneric
    }
}

// The borrows of a struct in global storage.
fn global_instr(
    area: &mut [u8],
    weight: usize,
    unit: &UnitView<'_, '_>,
    instruction: Instruction,
) -> PartialVMResult<usize>
    requires stacked { Stacked area.old weight }
    requires between { Between 32 35 instruction }
    ensures { Does (compiled unit.now) instruction area.old weight area.new result }
{
    let opcode = instruction.opcode;
    let def = StructDefinitionIndex(instruction.operand);
    let inst = StructDefInstantiationIndex(instruction.operand);
    let none = unit_views::no_types(unit);
    match opcode {
        32 => global_steps::borrow_global(area, weight, unit, true, def, none), // MutBorrowGlobal
        33 => global_steps::borrow_global_generic(area, weight, unit, true, inst), // MutBorrowGlobalGeneric
        34 => global_steps::borrow_global(area, weight, unit, false, def, none), // ImmBorrowGlobal
        _ => global_steps::borrow_global_generic(area, weight, unit, false, inst), // ImmBorrowGlobalGeneric
    }
}

// Exists, MoveFrom, MoveTo, each of a struct that is not generic and of a generic one.
fn resource_instr(
    area: &mut [u8],
    weight: usize,
    unit: &UnitView<'_, '_>,
    instruction: Instruction,
) -> PartialVMResult<usize>
    requires stacked { Stacked area.old weight }
    requires between { Between 55 60 instruction }
    ensures { Does (compiled unit.now) instruction area.old weight area.new result }
{
    let opcode = instruction.opcode;
    let def = StructDefinitionIndex(instruction.operand);
    let inst = StructDefInstantiationIndex(instruction.operand);
    match opcode {
        55 => resource_steps::exists(area, weight, unit, plain_struct(unit, def)), // Exists
        56 => resource_steps::exists(area, weight, unit, generic_struct(unit, inst)), // ExistsGeneric
        57 => resource_steps::move_from(area, weight, unit, plain_struct(unit, def)), // MoveFrom
        58 => resource_steps::move_from(area, weight, unit, generic_struct(unit, inst)), // MoveFromGeneric
        59 => resource_steps::move_to(area, weight, unit, plain_struct(unit, def)), // MoveTo
        _ => resource_steps::move_to(area, weight, unit, generic_struct(unit, inst)), // MoveToGeneric
    }
}

// The vector instructions.
fn vector_instr(
    area: &mut [u8],
    weight: usize,
    unit: &UnitView<'_, '_>,
    instruction: Instruction,
) -> PartialVMResult<usize>
    requires stacked { Stacked area.old weight }
    requires between { Between 63 70 instruction }
    ensures { Does (compiled unit.now) instruction area.old weight area.new result }
{
    let opcode = instruction.opcode;
    let idx = SignatureIndex(instruction.operand);
    let n = instruction.count;
    match opcode {
        63 => vector_pack_steps::vec_pack(area, weight, unit, idx, n), // VecPack
        64 => vector_steps::vec_len(area, weight, unit, idx), // VecLen
        65 => vector_borrow_steps::borrow_vector_element(area, weight, unit, idx, false), // VecImmBorrow
        66 => vector_borrow_steps::borrow_vector_element(area, weight, unit, idx, true), // VecMutBorrow
        67 => vector_steps::vec_push_back(area, weight, unit, idx), // VecPushBack
        68 => vector_steps::vec_pop_back(area, weight, unit, idx), // VecPopBack
        69 => vector_pack_steps::vec_unpack(area, weight, unit, idx, n), // VecUnpack
        _ => vector_steps::vec_swap(area, weight, unit, idx), // VecSwap
    }
}

// `verify_instr` of the i-th instruction.
#[tactic(auto, using(crate::specs::Does::arm_does, type_stack::specs::Stepping::done_here), unfolding(record_views::specs::Records::instruction_of, definitions::specs::TypeSafety::verify_instr, crate::specs::Does::Each))]
pub fn verify_instr(
    area: &mut [u8],
    weight: usize,
    locals: &Locals<'_>,
    i: usize,
) -> PartialVMResult<usize>
    requires stacked { Stacked area.old weight }
    requires i_lt_count { i < locals.now.unit.view.code.count }
    ensures { DoesAt (compiled locals.now.unit) i area.old weight area.new result }
{
    let unit = &locals.unit;
    let it = code_views::instruction_at(unit, i);
    let opcode = it.opcode;
    let local = LocalIndex(it.local);
    match instruction_arms::arm_of(opcode) {
        Arm::Pop => drop_steps::pop_step(area, weight, unit),
        Arm::Ret => list_steps::ret_step(area, weight, unit),
        Arm::BrBool => pop_leaf(area, weight, BOOL, StatusCode::BR_TYPE_MISMATCH_ERROR),
        Arm::Branch => Ok(weight),
        Arm::LdInteger => type_pushes::push_leaf(area, weight, integer_type(opcode - 5)), // LdU8, LdU64, LdU128
        Arm::Cast => operand_steps::cast(area, weight, integer_type(opcode - 8)), // CastU8, CastU64, CastU128
        Arm::LdConst => ld_const(area, weight, unit, ConstantPoolIndex(it.operand)),
        Arm::LdBool => type_pushes::push_leaf(area, weight, BOOL),
        Arm::CopyLoc => copy_loc(area, weight, locals, local),
        Arm::MoveLoc => move_loc(area, weight, locals, local),
        Arm::StLoc => st_loc(area, weight, locals, local),
        Arm::Call => call_instr(area, weight, unit, it),
        Arm::Struct => struct_instr(area, weight, unit, it),
        Arm::ReadRef => reference_steps::read_ref(area, weight, unit),
        Arm::WriteRef => reference_steps::write_ref(area, weight, unit),
        Arm::FreezeRef => operand_steps::freeze_ref(area, weight),
        Arm::BorrowLoc => borrow_loc_instr(area, weight, locals, it),
        Arm::BorrowField => field_instr(area, weight, unit, it),
        Arm::BorrowGlobal => global_instr(area, weight, unit, it),
        Arm::Arithmetic => pair_steps::arithmetic(area, weight),
        Arm::Logical => pair_steps::logical(area, weight),
        Arm::Not => operand_steps::negation(area, weight),
        Arm::Equality => drop_steps::equality(area, weight, unit),
        Arm::Comparison => pair_steps::comparison(area, weight),
        Arm::Abort => pop_leaf(area, weight, U64, StatusCode::ABORT_TYPE_MISMATCH_ERROR),
        Arm::Nop => Ok(weight),
        Arm::Resource => resource_instr(area, weight, unit, it),
        Arm::Shift => pair_steps::shift(area, weight),
        Arm::Vector => vector_instr(area, weight, unit, it),
    }
}
