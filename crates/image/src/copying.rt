//! Bytes copied one by one.
ghost use Rattle.std.specs.Prelude.{◌≡◌, length};

/// Copies `from` over `to`, which is as long.
// One by one: std's copy is a move of memory, for which an archive would need one more function of the C library.
#[inline(always)]
pub fn copy(to: &mut [u8], from: &[u8])
    requires { length to.old ≡ length from.now }
    ensures { to.new ≡ from.now }
{
    for i in 0..from.len() {
        to[i] = from[i];
    }
}
