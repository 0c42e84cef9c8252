// What a push writes behind the stack, a type's first byte and the length that ends an entry, and the pushes that need no more than these
// two: of a type of one byte, and of a type that stands at the stack's end already, with another first byte.
#![tactic(auto)]

ghost use Rattle.std.specs.Prelude.{◌≡◌, [], ◌∷◌, ◌+◌, ◌≤◌, ◌<◌, length};
ghost use Rattle.definitions.specs.SignatureToken.{le16};
ghost use Rattle.type_stack.specs.Spliced.{spliced};
ghost use Rattle.type_stack.specs.Held.{Stacked, part};
ghost use Rattle.type_stack.specs.Pushing.{PushesTo};
ghost use Rattle.type_pushes.specs.References.{ReferenceCommand};

use status::{PartialVMResult, StatusCode};

// Writes a type's first byte. Its operands are written behind it.
pub fn put_command(area: &mut [u8], weight: usize, command: u8)
    requires { weight < length area.old }
    ensures { area.new ≡ spliced area.old weight (command ∷ []) }
{
    area[weight] = command;
}

// The first byte of a reference, mutable or not: document 01's 0B and 0A. `mutable` is the Rust's own parameter `mut_` of the borrows, and the definitions' too: a type for
// its two values would be made of it by each caller.
#[tactic(auto, using(crate::specs::References::commands))]
pub fn reference_command(mutable: bool) -> u8
    ensures { ReferenceCommand mutable result }
{
    if mutable {
        return 0x0B;
    }
    0x0A
}

// Makes an entry of the len bytes that were written at weight: writes their length behind them. Answers the weight after it.
pub fn seal(area: &mut [u8], weight: usize, len: usize) -> usize
    requires { (weight + (len + 2) ≤ length area.old) × (len ≤ 65535) }
    ensures { (result ≡ weight + (len + 2)) × (area.new ≡ spliced area.old (weight + len) (le16 len)) }
{
    let [low, high] = (len as u16).to_le_bytes(); // no bit is lost, which is proved
    area[weight + len] = low;
    area[weight + len + 1] = high;
    weight + (len + 2)
}

// Pushes the type of one byte. Whether there is room is tested here and in each push: a function for the test would answer a Result, with a
// promise of its own, to spare a comparison.
#[tactic(auto, using(type_stack::specs::Pushing::pushing))]
pub fn push_leaf(area: &mut [u8], weight: usize, command: u8) -> PartialVMResult<usize>
    requires { Stacked area.old weight }
    ensures { PushesTo (command ∷ []) area.old weight area.new result }
{
    if area.len() - weight < 3 {
        return Err(StatusCode::NO_ROOM);
    }
    put_command(area, weight, command);
    Ok(seal(area, weight, 1))
}

// Pushes the type that stands at weight, up to `to`, with another first byte, and with room for a length behind it. FreezeRef's: the
// popped reference, immutable.
#[tactic(auto, using(type_stack::specs::Pushing::pushing))]
pub fn push_retagged(area: &mut [u8], weight: usize, tag: u8, to: usize) -> PartialVMResult<usize>
    requires stacked { Stacked area.old weight }
    requires weight_lt_to { (weight < to) × (to + 2 ≤ length area.old) }
    ensures { PushesTo (tag ∷ part area.old (weight + 1) to) area.old weight area.new result }
{
    put_command(area, weight, tag);
    Ok(seal(area, weight, to - weight))
}
