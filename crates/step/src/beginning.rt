//! The sets with which a step begins, told from the counts. Each context gets a flag, by a
//! comparison that a compiler can make for many at a time, and a multiplication brings four flags
//! together.
ghost use Rattle.std.specs.Prelude.{◌≡◌, ◌+◌, ◌*◌, ◌/◌, ◌<◌, ◌≤◌};
ghost use Rattle.sets.specs.Sets.{upto};
ghost use Rattle.model.specs.Sets.{from, number};
ghost use Rattle.model.specs.Firing.{holds_token};
ghost use Rattle.net.specs.Markings.{counts_in};
ghost use Rattle.step.specs.Spare.{below, spare_word};
ghost use Rattle.step.specs.Flags.{flagged, Flags};

use sets::Set;

// Four flags as the digits of a number, the first the lowest. The factor is the sum of 2 to the powers 0, 7, 14 and 21: in
// the product flag i stands at digit 21 + i, and no two flags meet anywhere.
fn four(flags: [u8; 4]) -> u64
    requires { Flags flags }
    ensures { result ≡ number 4 (flagged flags) }
{
    let apart = u32::from_le_bytes(flags);
    u64::from(apart) * 2113665 / 2097152 % 16
}

// How many entries get a flag where there are n contexts. With whole eights no comparison and no store is made for a single entry.
fn eights(n: usize) -> usize
    requires { n ≤ 48 }
    ensures { result ≡ 8 * ((n + 7) / 8) }
{
    8 * ((n + 7) / 8)
}

// The set of the contexts that are flagged, of the first n. What is flagged behind them is cut off.
fn gathered(flags: &[u8; 48], n: usize) -> Set
    requires { (n ≤ 48) × Flags flags.now }
    ensures { result ≡ number 64 (upto n (flagged flags.now)) }
{
    let (fours, _) = flags.as_chunks::<4>();
    let mut word = 0;
    for k in (0..eights(n) / 4).rev() {
        word = 16 * word + four(fours[k]);
    }
    Set::of_word(word).below(n)
}

// The contexts among the first n whose entry in one array is below that in the other.
fn less(n: usize, low: &[u8; 48], high: &[u8; 48]) -> Set
    requires { n ≤ 48 }
    ensures { result ≡ number 64 (upto n (below high.now low.now)) }
{
    let mut flags = [0u8; 48];
    for c in 0..eights(n) {
        flags[c] = u8::from(low[c] < high[c]);
    }
    gathered(&flags, n)
}

/// The active contexts among the first n: their counts are above 0.
pub fn active(n: usize, counts: &[u8; 48]) -> Set
    requires { n ≤ 48 }
    ensures { result ≡ number 64 (upto n (holds_token (counts_in counts.now))) }
{
    let zeros = [0u8; 48];
    less(n, &zeros, counts)
}

/// The contexts among the first n that stand below their capacity.
pub fn below_capacity(n: usize, capacities: &[u8; 48], counts: &[u8; 48]) -> Set
    requires { n ≤ 48 }
    ensures { result ≡ spare_word n capacities.now counts.now }
{
    less(n, counts, capacities)
}
