// `verify` of type_safety.rs: the blocks as listed, each from its first to its last instruction, following no jump, past Ret and Abort too.
// The stack is empty at first and is not cleared between blocks. Whether it was empty after each of them is told beside the verdict: where it
// was, stack usage accepts too (theorems, proofs/Clean).
#![tactic(auto)]

ghost use Rattle.std.specs.Prelude.{◌≡◌, ◌≤◌, ◌<◌, length};
ghost use Rattle.definitions.specs.Verify.{walk_block};
ghost use Rattle.type_stack.specs.Held.{Stacked};
ghost use Rattle.unit_tables.specs.Compiled.{compiled};
ghost use Rattle.code_views.specs.Answers.{block_of};
ghost use Rattle.type_safety.specs.Walks.{Walks, TypesOf};

use code_views::Block;
use function_views::FunctionTypes;
use locals::Locals;
use status::{Position, Verdict};
use type_stack::{Stopped, Walk};
use unit_tables::UnitView;

// The verdict of types, and whether the walk was clean: no instruction was refused, and the stack was empty after each block. The verdict has its
// meaning either way, so that the flag makes no Option of it.
#[derive(Clone, Copy)]
pub struct Types {
    pub verdict: Verdict,
    pub clean: bool,
}

// A block, from the stack that the last one left. Not `first..=last`: such a loop is left at two places, and what holds at its end would be proved for
// each.
#[tactic(auto, using(crate::specs::Walks::in_block_refused))]
fn verify_block(area: &mut [u8], weight: usize, locals: &Locals<'_>, block: Block) -> Walk
    requires stacked { Stacked area.old weight }
    requires first_le_last { (block.first ≤ block.last) × (block.last < locals.now.unit.view.code.count) }
    ensures { Walks (λ n. walk_block (compiled locals.now.unit) n (block_of block)) area.old weight area.new result }
{
    let mut below = weight;
    for offset in usize::from(block.first)..usize::from(block.last) + 1 {
        match instructions::verify_instr(area, below, locals, offset) {
            Ok(next) => below = next,
            Err(status) => {
                return Err(Stopped {
                    status,
                    offset,
                    weight: below,
                });
            }
        }
    }
    Ok(below)
}

// The blocks as listed; the first refusal ends it, with its instruction's offset.
fn verify_blocks(area: &mut [u8], locals: &Locals<'_>) -> Types
    requires { length area.old ≤ 65535 }
    ensures { TypesOf (compiled locals.now.unit) (length area.old) result }
{
    let mut weight = 0usize;
    let mut clean = true;
    for block_id in 0..usize::from(locals.unit.view.blocks.count) {
        let block = code_views::block_at(&locals.unit, block_id);
        match verify_block(area, weight, locals, block) {
            Ok(next) => {
                weight = next;
                clean &= next == 0;
            }
            Err(stopped) => {
                let position = Position::Instruction(stopped.offset as u16); // fits, which is proved
                return Types {
                    verdict: status::refusal_at(stopped.status, position),
                    clean: false,
                };
            }
        }
    }
    Types {
        verdict: Verdict::Accepted,
        clean,
    }
}

// `verify`. The places are kept in two arrays, since no heap is used.
pub fn verify(area: &mut [u8], unit: &UnitView<'_, '_>) -> Types
    requires { length area.old ≤ 65535 }
    ensures { TypesOf (compiled unit.now) (length area.old) result }
{
    let mut first = [0u16; 256];
    let n = locals::places(unit, FunctionTypes::Parameters, &mut first);
    let mut second = [0u16; 256];
    let m = locals::places(unit, FunctionTypes::Locals, &mut second);
    let locals = Locals {
        unit: *unit,
        parameters: &first[..n],
        locals: &second[..m],
    };
    verify_blocks(area, &locals)
}
