// Numbers as a unit's bytes hold them, the low byte first, and a count as a u64.
#![tactic(auto)]

ghost use Rattle.std.specs.Prelude.{◌≡◌, ◌+◌, ◌*◌, ◌<◌, length, get_or};

// The u16 at `at`, the low byte first.
pub fn u16_at(s: &[u8], at: usize) -> u16
    requires { at + 1 < length s.now }
    ensures { result ≡ get_or s.now at 0 + 256 * get_or s.now (at + 1) 0 }
{
    u16::from_le_bytes([s[at], s[at + 1]])
}

// The same as a number of the machine.
pub fn number_at(s: &[u8], at: usize) -> usize
    requires { at + 1 < length s.now }
    ensures { result ≡ get_or s.now at 0 + 256 * get_or s.now (at + 1) 0 }
{
    usize::from(u16_at(s, at))
}

// A count as a number of values on the stack, none of its bits lost: by a cast, since u64 has no `From` of usize.
pub fn wide64(count: usize) -> u64
    ensures { result ≡ count }
{
    count as u64
}
