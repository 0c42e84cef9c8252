// What a type's command alone tells of the type: how many bytes it has, where no other type stands inside, and whether it stands around one
// other. The answers are numbers that are added and not cases that are decided, since a decision over a type's command is often predicted wrongly.
#![tactic(auto)]

ghost use Rattle.std.specs.Prelude.{◌≡◌};
ghost use Rattle.type_commands.specs.Plain.{leaf_width, index_width, plain_width, wrapping};

// A leaf is its command.
fn leaf_width(command: u8) -> usize
    ensures { result ≡ leaf_width command }
{
    match command {
        0x01..=0x06 => 1,
        _ => 0,
    }
}

// A struct and a type parameter are their command and a u16.
fn index_width(command: u8) -> usize
    ensures { result ≡ index_width command }
{
    match command {
        0x08 => 3,
        0x0C => 3,
        _ => 0,
    }
}

// How many bytes a type has whose command alone tells it; 0 for a command that does not, and for a byte that is none. One of the two is 0:
// their sum takes no decision.
pub fn plain_width(command: u8) -> usize
    ensures { result ≡ plain_width command }
{
    leaf_width(command) + index_width(command)
}

// 1 where the command stands around one type, as a vector's or a reference's, and 0 where it does not: the place of the command that tells
// the rest, counted from this one.
pub fn wraps(command: u8) -> usize
    ensures { result ≡ wrapping command }
{
    match command {
        0x07 => 1,
        0x0A..=0x0B => 1,
        _ => 0,
    }
}
