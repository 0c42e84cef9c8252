// The code and the listed blocks of a unit that was read. That a number is one of the code's is asked of each call: it holds of the number and the
// unit together, and loops give the numbers.
#![tactic(auto)]

ghost use Rattle.std.specs.Prelude.{◌<◌};
ghost use Rattle.unit_tables.specs.Compiled.{compiled};
ghost use Rattle.code_views.specs.Answers.{opcode_byte, InstructionAt, OpcodeAt, BlockAt};

use record_views::Instruction;
use unit_tables::UnitView;

// The first and the last instruction.
#[derive(Clone, Copy)]
pub struct Block {
    pub first: u16,
    pub last: u16,
}

// Instruction i, one of the code's.
#[tactic(auto, using(crate::specs::Lookups::instruction_laws))]
pub fn instruction_at(unit: &UnitView<'_, '_>, i: usize) -> Instruction
    requires { i < unit.now.view.code.count }
    ensures { InstructionAt (compiled unit.now) i (opcode_byte unit.now i) result }
{
    record_views::instruction_at(
        unit.bytes,
        unit_tables::place(unit.index, unit.view.code, i),
    )
}

// The opcode of instruction i alone.
#[tactic(auto, using(crate::specs::Lookups::opcode_laws))]
pub fn opcode_at(unit: &UnitView<'_, '_>, i: usize) -> u8
    requires { i < unit.now.view.code.count }
    ensures { OpcodeAt (compiled unit.now) i (opcode_byte unit.now i) result }
{
    unit.bytes[unit_tables::place(unit.index, unit.view.code, i)]
}

// Block i, one of those listed.
#[tactic(auto, using(crate::specs::Lookups::block_laws))]
pub fn block_at(unit: &UnitView<'_, '_>, i: usize) -> Block
    requires { i < unit.now.view.blocks.count }
    ensures { BlockAt unit.now i result }
{
    let p = unit_tables::place(unit.index, unit.view.blocks, i);
    Block {
        first: numbers::u16_at(unit.bytes, p + 1),
        last: numbers::u16_at(unit.bytes, p + 3),
    }
}
