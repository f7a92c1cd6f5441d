//! The board for programs in other languages, with numbers in place of verdicts; `board_c` exports these functions to C.
#![tactic(auto)]

ghost use Rattle.std.specs.Prelude.{◌≡◌};
ghost use Rattle.model.specs.Refusals.{verdict_number};
ghost use Rattle.model.specs.Image.{edition_1, load};
ghost use Rattle.history.specs.Reports.{ran};
ghost use Rattle.board.specs.Values.{composed, listed};

/// Composes an image into the output: its length, or the refusal.
pub fn board_compose(capacities: &[u8], relations: &[u8], out: &mut [u8]) -> u64
    ensures { (record { value = result; output = out.new }) ≡ composed capacities.now relations.now out.old }
{
    match image::compose(capacities, relations, out) {
        Ok(length) => length as u64,
        Err(refused) => u64::from(refused.number()),
    }
}

/// Checks an image: 0, or the refusal.
pub fn board_check(image: &[u8]) -> u32
    ensures { result ≡ verdict_number (load edition_1 image.now).verdict }
{
    match image::check(image) {
        Ok(()) => 0,
        Err(refusal) => u32::from(refusal.number()),
    }
}

/// Writes the list that an accepted image stands for: the number of bytes written, 0 where the output has no room, or the refusal. A list of
/// 3 to 9 bytes may have a refusal's value: `board_check` tells which it is.
pub fn board_list(image: &[u8], out: &mut [u8]) -> u64
    ensures { (record { value = result; output = out.new }) ≡ listed image.now out.old }
{
    match image::list(image, out) {
        Ok(Some(written)) => written as u64,
        Ok(None) => 0,
        Err(refusal) => u64::from(refusal.number()),
    }
}

/// Runs a list of calls on the net freshly loaded from an image: the number of bytes written, 0 where nothing was.
pub fn board_run(image: &[u8], calls: &[u8], out: &mut [u8]) -> u64
    ensures { (record { written = result; output = out.new }) ≡ ran image.now calls.now out.old }
{
    history::run(image, calls, out).unwrap_or(0) as u64
}
