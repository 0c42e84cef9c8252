// The stack usage pass, beside stack_usage_verifier.rs: the height of the stack over a block, and the verdict over the blocks as listed.
#![tactic(auto)]

ghost use Rattle.std.specs.Prelude.{◌≡◌, ◌<◌, ◌≤◌};
ghost use Rattle.definitions.specs.StackUsage.{height_after, verify_block};
ghost use Rattle.definitions.specs.Verify.{stack_usage};
ghost use Rattle.unit_tables.specs.Answers.{told};
ghost use Rattle.unit_tables.specs.Compiled.{compiled};
ghost use Rattle.code_views.specs.Answers.{block_of};

use code_views::Block;
use status::{PartialVMResult, Position, StatusCode, Verdict};
use unit_tables::UnitView;

// The height after an effect: pops past the height are refused first, then a sum that no u64 holds.
#[tactic(auto, using(crate::proofs::Heights::heights))]
fn height_after(height: u64, pops: u64, pushes: u64) -> PartialVMResult<u64>
    ensures { told (λ h. h) result ≡ height_after height (record { pops = pops; pushes = pushes }) }
{
    let rest = height
        .checked_sub(pops)
        .ok_or(StatusCode::NEGATIVE_STACK_SIZE_WITHIN_BLOCK)?;
    rest.checked_add(pushes).ok_or(StatusCode::HEIGHT)
}

// A block, from its first to its last instruction: each block starts at height 0, and ends there. Not `first..=last`, which is left at two places: what
// holds at its end would be proved for each.
#[tactic(auto, using(crate::proofs::Blocks::block_even))]
fn verify_block(unit: &UnitView<'_, '_>, block: Block) -> PartialVMResult<()>
    requires { (block.first ≤ block.last) × (block.last < unit.now.view.code.count) }
    ensures { told (λ u. u) result ≡ verify_block (compiled unit.now) (block_of block) }
{
    let table = instruction_effect::effects();
    let mut height = 0u64;
    for i in usize::from(block.first)..usize::from(block.last) + 1 {
        let opcode = usize::from(code_views::opcode_at(unit, i));
        let (pops, pushes) = instruction_effect::instruction_effect(table[opcode], unit, i)?;
        height = height_after(height, pops, pushes)?;
    }
    if height == 0 {
        Ok(())
    } else {
        Err(StatusCode::POSITIVE_STACK_SIZE_AT_BLOCK_END)
    }
}

// `StackUsageVerifier::verify`: the blocks as listed; the first refusal ends it, with its block's start.
#[tactic(auto, using(crate::proofs::Blocks::in_blocks))]
pub fn verify(unit: &UnitView<'_, '_>) -> Verdict
    ensures { result ≡ stack_usage (compiled unit.now) }
{
    for block_id in 0..usize::from(unit.view.blocks.count) {
        let block = code_views::block_at(unit, block_id);
        if let Err(status) = verify_block(unit, block) {
            return status::refusal_at(status, Position::BlockStart(block.first));
        }
    }
    Verdict::Accepted
}
