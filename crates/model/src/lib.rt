//! The public words of the machine: calls and requests, verdicts and refusals, answers, totals, relations.
//! What they mean is in specs/: Machine for the calls and their answers, Refusals for the numbers.
#![tactic(auto)]

ghost use Rattle.std.specs.Prelude.{◌≡◌};
ghost use Rattle.model.specs.Refusals.{number_of, verdict_number, is_granted};
ghost use Rattle.model.specs.Machine.{without_firings};

mod calls;
mod refusals;
mod tallies;

pub use calls::UnknownCall;
pub use refusals::UnknownRefusal;

/// The four calls; a request carries the number of its context.
#[derive(Clone, Copy, Debug, PartialEq, Eq)]
pub enum Call {
    Activate(usize),
    Deactivate(usize),
    Undo,
    Settle,
}

/// An activation (`on`) or a deactivation of a context.
#[derive(Clone, Copy, Debug, PartialEq, Eq)]
pub struct Request {
    pub on: bool,
    pub context: usize,
}

/// Why a call, an image or a composing was refused. The discriminants are the numbers in answers and listings.
#[derive(Clone, Copy, Debug, PartialEq, Eq)]
pub enum Refusal {
    ShortImage = 1,
    OtherEdition = 2,
    WrongSizes = 3,
    WrongLayout = 4,
    ZeroCapacity = 5,
    WrongRelation = 6,
    RepeatedRelation = 7,
    ShortOutput = 8,
    WrongRecords = 9,
    NoSuchContext = 10,
    StepLimitMet = 11,
    TokensLeft = 12,
    NothingOpen = 13,
    AlreadyOff = 14,
    NotRaised = 15,
}

impl Refusal {
    /// The number that stands for the refusal in answers and listings.
    pub fn number(self) -> u8
        ensures { result ≡ number_of self }
    {
        self as u8
    }
}

/// Whether a call was granted, and why it was refused where it was not.
#[derive(Clone, Copy, Debug, PartialEq, Eq)]
pub enum Verdict {
    Granted,
    Refused(Refusal),
}

impl Verdict {
    /// The number that stands for the verdict in answers and listings: 0, or the refusal's.
    pub fn number(self) -> u8
        ensures { result ≡ verdict_number self }
    {
        match self {
            Verdict::Granted => 0,
            Verdict::Refused(refusal) => refusal.number(),
        }
    }

    pub fn is_granted(self) -> bool
        ensures { result ≡ is_granted self }
    {
        matches!(self, Verdict::Granted)
    }
}

/// What a call is answered: the verdict, how many transitions fired, also where they were rolled back, and how many of these were forced.
#[derive(Clone, Copy, Debug, PartialEq, Eq)]
pub struct Answer {
    pub verdict: Verdict,
    pub firings: usize,
    pub forced: usize,
}

impl Answer {
    /// An answer where nothing fired.
    pub fn unfired(verdict: Verdict) -> Self
        ensures { result ≡ without_firings verdict }
    {
        Answer {
            verdict,
            firings: 0,
            forced: 0,
        }
    }
}

/// How many requests were granted, how many requests and undos were refused, and how many requests were undone. Each total stops at the
/// largest `u32`.
#[derive(Clone, Copy, Debug, Default, PartialEq, Eq)]
pub struct Tally {
    pub granted: u32,
    pub refused: u32,
    pub undone: u32,
}

/// A relation as its three bytes: its kind, and its two ends. Not every value fits a net.
#[derive(Clone, Copy, Debug, PartialEq, Eq)]
pub struct Relation {
    pub kind: u8,
    pub a: u8,
    pub b: u8,
}
