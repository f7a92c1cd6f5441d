//! Answers and totals as bytes, the low byte first.
ghost use Rattle.std.specs.Prelude.{◌≡◌};
ghost use Rattle.model.specs.Image.{bytes};
ghost use Rattle.history.specs.Encoding.{answer_bytes, tally_bytes};

use model::{Answer, Tally};

/// The verdict's number, the firings and the forced ones. A step makes 4096 firings at most, which two bytes hold.
pub fn answer_bytes(answer: Answer) -> [u8; 5]
    ensures { result ≡ answer_bytes answer }
{
    let [a, b, ..] = answer.firings.to_le_bytes();
    let [c, d, ..] = answer.forced.to_le_bytes();
    [answer.verdict.number(), a, b, c, d]
}

// A total in four bytes.
fn total_bytes(total: u32) -> [u8; 4]
    ensures { result ≡ bytes 4 total }
{
    total.to_le_bytes()
}

/// The three totals in four bytes each.
pub fn tally_bytes(tally: Tally) -> [u8; 12]
    ensures { result ≡ tally_bytes tally }
{
    let [a, b, c, d] = total_bytes(tally.granted);
    let [e, f, g, h] = total_bytes(tally.refused);
    let [i, j, k, l] = total_bytes(tally.undone);
    [a, b, c, d, e, f, g, h, i, j, k, l]
}
