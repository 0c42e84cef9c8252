// The pushes of a type that stands elsewhere: its bytes are copied to the stack's end, from another slice or from further up in the area.
#![tactic(auto)]

ghost use Rattle.std.specs.Prelude.{◌≡◌, ◌∷◌, ◌+◌, ◌≤◌, length};
ghost use Rattle.type_stack.specs.Held.{Stacked, Part, part, entered};
ghost use Rattle.type_stack.specs.Pushing.{PushesTo};

use status::{PartialVMResult, StatusCode};

// Writes an entry of the type of these bytes, for which there is room. Answers the weight after it.
#[tactic(auto, using(type_stack::specs::Pushing::sealed, type_stack::specs::Spliced::lent_part))]
pub fn write_part(area: &mut [u8], weight: usize, bytes: &[u8]) -> usize
    requires { (length bytes.now ≤ 65535) × (weight + (length bytes.now + 2) ≤ length area.old) }
    ensures { (result ≡ weight + (length bytes.now + 2)) × (area.new ≡ entered area.old weight bytes.now) }
{
    let len = bytes.len();
    byte_parts::copy(&mut area[weight..weight + len], bytes);
    type_pushes::seal(area, weight, len)
}

// Pushes the type of these bytes.
#[tactic(auto, using(type_stack::specs::Pushing::pushing))]
pub fn push_part(area: &mut [u8], weight: usize, bytes: &[u8]) -> PartialVMResult<usize>
    requires stacked { Stacked area.old weight }
    requires short { length bytes.now ≤ 65535 }
    ensures { PushesTo bytes.now area.old weight area.new result }
{
    if area.len() - weight < bytes.len() + 2 {
        return Err(StatusCode::NO_ROOM);
    }
    Ok(write_part(area, weight, bytes))
}

// Pushes the type of a first byte over the type of these bytes: a reference to it, or a vector of it.
#[tactic(auto, using(type_stack::specs::Pushing::pushing, type_stack::specs::Spliced::lent_part))]
pub fn push_wrapped(
    area: &mut [u8],
    weight: usize,
    command: u8,
    bytes: &[u8],
) -> PartialVMResult<usize>
    requires stacked { Stacked area.old weight }
    requires short { length bytes.now ≤ 65535 }
    ensures { PushesTo (command ∷ bytes.now) area.old weight area.new result }
{
    let len = bytes.len() + 1;
    if area.len() - weight < len + 2 {
        return Err(StatusCode::NO_ROOM);
    }
    type_pushes::put_command(area, weight, command);
    byte_parts::copy(&mut area[weight + 1..weight + len], bytes);
    Ok(type_pushes::seal(area, weight, len))
}

// Pushes the type that stands higher up in the area itself, from `from` to `to`, with room for a length behind it. ReadRef's: the popped
// reference's referent.
#[tactic(auto, using(type_stack::specs::Pushing::pushing, type_stack::specs::Spliced::moved, type_stack::specs::Held::part_length))]
pub fn push_within(area: &mut [u8], weight: usize, from: usize, to: usize) -> PartialVMResult<usize>
    requires stacked { Stacked area.old weight }
    requires weight_le_from { (weight ≤ from) × Part area.old from to × (to + 2 ≤ length area.old) }
    ensures { PushesTo (part area.old from to) area.old weight area.new result }
{
    area.copy_within(from..to, weight);
    Ok(type_pushes::seal(area, weight, to - from))
}
