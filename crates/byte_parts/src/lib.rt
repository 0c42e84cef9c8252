// Bytes copied one by one. A type has a few bytes, and where the library's `copy_from_slice` calls `memmove` for each copy, this loop calls nothing.
#![tactic(auto)]

ghost use Rattle.std.specs.Prelude.{◌≡◌, length};

// Copies the bytes over out, which is as long.
pub fn copy(out: &mut [u8], bytes: &[u8])
    requires { length out.old ≡ length bytes.now }
    ensures { out.new ≡ bytes.now }
{
    for i in 0..bytes.len() {
        out[i] = bytes[i];
    }
}
