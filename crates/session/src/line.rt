//! A line, taken in byte by byte in constant memory, and the call that it says.
ghost use Rattle.std.specs.Prelude.{◌≡◌, ◌∷◌, [], not};
ghost use Rattle.session.specs.Decimals.{Reads, Extends};
ghost use Rattle.session.specs.Calls.{said};
ghost use Rattle.session.specs.Kept.{Empty, Pushed, Begun, Means};

use model::Call;

/// The first bytes of a line and its length, which stops counting at 5: no call's text is longer than 4 bytes.
#[derive(Clone, Copy, Debug, PartialEq, Eq)]
pub struct Line {
    pub start: [u8; 4],
    pub len: usize,
}

impl Line {
    /// A line with no bytes yet.
    pub fn new() -> Line
        ensures { Empty result }
    {
        Line {
            start: [0; 4],
            len: 0,
        }
    }

    /// Takes in one byte more.
    pub fn push(&mut self, b: u8)
        ensures { Pushed self.old b self.new }
    {
        if self.len < 4 {
            self.start[self.len] = b;
            self.len += 1;
        } else {
            self.len = 5;
        }
    }

    /// Whether the line has no byte: at the end of the input, a line without bytes is none.
    pub fn is_empty(&self) -> bool
        ensures { Begun self.now (not result) }
    {
        self.len == 0
    }

    /// The call that the line says, if it says one.
    #[tactic(auto, using(crate::proofs::Keeping::means_kept))]
    pub fn call(&self) -> Option<Call>
        ensures { Means self.now result }
    {
        call_in(self.start.get(..self.len)?)
    }
}

/// The call whose text this is: a letter alone, or a sign with the context's number behind it.
#[tactic(auto, using(crate::proofs::Spelling::said_nothing, crate::proofs::Spelling::text_u, crate::proofs::Spelling::text_s, crate::proofs::Spelling::text_plus, crate::proofs::Spelling::text_minus, crate::proofs::Spelling::text_plus_none, crate::proofs::Spelling::text_minus_none, crate::proofs::Spelling::text_no_letter, crate::proofs::Spelling::text_no_sign))]
fn call_in(text: &[u8]) -> Option<Call>
    ensures { result ≡ said text.now }
{
    match text {
        b"u" => Some(Call::Undo),
        b"s" => Some(Call::Settle),
        [b'+', digits @ ..] => Some(Call::Activate(usize::from(number(digits)?))),
        [b'-', digits @ ..] => Some(Call::Deactivate(usize::from(number(digits)?))),
        _ => None,
    }
}

/// The number that a text in decimal spells.
#[tactic(auto, using(crate::proofs::Spelling::reads_nothing, crate::proofs::Spelling::reads_none_behind))]
fn number(digits: &[u8]) -> Option<u8>
    ensures { Reads digits.now result }
{
    let (first, rest) = digits.split_first()?;
    let mut number = digit(*first)?;
    for b in rest {
        number = extended(number, *b)?;
    }
    Some(number)
}

/// The number that one digit spells.
#[tactic(auto, using(crate::proofs::Spelling::reads_digit, crate::proofs::Spelling::reads_below, crate::proofs::Spelling::reads_above))]
fn digit(b: u8) -> Option<u8>
    ensures { Reads (b ∷ []) result }
{
    match b {
        b'0'..=b'9' => Some(b - b'0'),
        _ => None,
    }
}

/// The number that the text of this one with one digit behind it spells: no text has a zero in front.
#[tactic(auto, using(crate::proofs::Spelling::extends_zero, crate::proofs::Spelling::extends_ten, crate::proofs::Spelling::extends_other, crate::proofs::Spelling::extends_number, crate::proofs::Spelling::extends_large))]
fn extended(number: u8, b: u8) -> Option<u8>
    ensures { Extends number b result }
{
    if number == 0 {
        return None;
    }
    number.checked_mul(10)?.checked_add(digit(b)?)
}
