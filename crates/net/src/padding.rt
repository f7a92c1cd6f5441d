//! An array that a slice fills in part.
ghost use Rattle.std.specs.Prelude.{◌≡◌, ◌-◌, ◌≤◌, length, take, drop, replicate};

/// The items, and `fill` behind them.
pub fn padded<T: Copy, const N: usize>(items: &[T], fill: T) -> [T; N]
    requires { length items.now ≤ N }
    ensures items { take (length items.now) result ≡ items.now }
    ensures fill { drop (length items.now) result ≡ replicate (N - length items.now) fill }
{
    let mut padded = [fill; N];
    padded[..items.len()].copy_from_slice(items);
    padded
}
