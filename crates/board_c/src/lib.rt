//! The functions of `board` for programs in other languages: a slice passes as a pointer and a length. include/board.h declares them for C.
#![tactic(auto)]

ghost use Rattle.std.specs.Prelude.{◌≡◌};
ghost use Rattle.model.specs.Refusals.{verdict_number};
ghost use Rattle.model.specs.Image.{edition_1, load};
ghost use Rattle.history.specs.Reports.{ran};
ghost use Rattle.board.specs.Values.{composed, listed};

/// Composes an image into the output: its length, or the refusal.
#[unsafe(no_mangle)]
pub extern "C" fn board_compose(capacities: &[u8], relations: &[u8], out: &mut [u8]) -> u64
    ensures { (record { value = result; output = out.new }) ≡ composed capacities.now relations.now out.old }
{
    board::board_compose(capacities, relations, out)
}

/// Checks an image: 0, or the refusal.
#[unsafe(no_mangle)]
pub extern "C" fn board_check(image: &[u8]) -> u32
    ensures { result ≡ verdict_number (load edition_1 image.now).verdict }
{
    board::board_check(image)
}

/// Writes the list that an accepted image stands for: the number of bytes written, 0 where the output has no room, or the refusal. A list of
/// 3 to 9 bytes may have a refusal's value: `board_check` tells which it is.
#[unsafe(no_mangle)]
pub extern "C" fn board_list(image: &[u8], out: &mut [u8]) -> u64
    ensures { (record { value = result; output = out.new }) ≡ listed image.now out.old }
{
    board::board_list(image, out)
}

/// Runs a list of calls on the net freshly loaded from an image: the number of bytes written, 0 where nothing was.
#[unsafe(no_mangle)]
pub extern "C" fn board_run(image: &[u8], calls: &[u8], out: &mut [u8]) -> u64
    ensures { (record { written = result; output = out.new }) ≡ ran image.now calls.now out.old }
{
    board::board_run(image, calls, out)
}
