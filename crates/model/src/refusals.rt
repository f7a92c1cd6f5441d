//! Refusals by number and in words, and the verdict of a check.
ghost use Rattle.std.specs.Prelude.{◌≡◌};
ghost use Rattle.model.specs.Refusals.{Numbers, number_of, verdict_number, verdict_of};

use crate::{Refusal, Verdict};
use std::error::Error;
use std::fmt;

/// A byte that is the number of no refusal.
#[derive(Clone, Copy, Debug, PartialEq, Eq)]
pub struct UnknownRefusal(pub u8);

impl TryFrom<u8> for Refusal {
    type Error = UnknownRefusal;

    ghost try_from_gives = { Numbers };

    fn try_from(number: u8) -> Result<Self, UnknownRefusal> {
        match number {
            1 => Ok(Refusal::ShortImage),
            2 => Ok(Refusal::OtherEdition),
            3 => Ok(Refusal::WrongSizes),
            4 => Ok(Refusal::WrongLayout),
            5 => Ok(Refusal::ZeroCapacity),
            6 => Ok(Refusal::WrongRelation),
            7 => Ok(Refusal::RepeatedRelation),
            8 => Ok(Refusal::ShortOutput),
            9 => Ok(Refusal::WrongRecords),
            10 => Ok(Refusal::NoSuchContext),
            11 => Ok(Refusal::StepLimitMet),
            12 => Ok(Refusal::TokensLeft),
            13 => Ok(Refusal::NothingOpen),
            14 => Ok(Refusal::AlreadyOff),
            15 => Ok(Refusal::NotRaised),
            _ => Err(UnknownRefusal(number)),
        }
    }
}

impl fmt::Display for Refusal {
    fn fmt<W: fmt::Write>(&self, f: &mut fmt::Formatter<W>) -> fmt::Result {
        f.write_str(match self {
            Refusal::ShortImage => "the image is too short to have a trailer",
            Refusal::OtherEdition => "the image is of another edition",
            Refusal::WrongSizes =>
                "too few or too many contexts or relations, or a relation cut short",
            Refusal::WrongLayout => "a distance or the length does not follow from the trailer",
            Refusal::ZeroCapacity => "a capacity is 0",
            Refusal::WrongRelation => "a relation is of no kind, or its ends do not fit",
            Refusal::RepeatedRelation => "a relation repeats an earlier one",
            Refusal::ShortOutput => "the output is too short for the image",
            Refusal::WrongRecords => "the records are not those of the composed net",
            Refusal::NoSuchContext => "there is no such context",
            Refusal::StepLimitMet => "the step met its limit, and a transition could still fire",
            Refusal::TokensLeft => "something that was asked for could not be done",
            Refusal::NothingOpen => "no request is open",
            Refusal::AlreadyOff => "the context is not active",
            Refusal::NotRaised => "the context is no higher than it was",
        })
    }
}

impl fmt::Display for UnknownRefusal {
    fn fmt<W: fmt::Write>(&self, f: &mut fmt::Formatter<W>) -> fmt::Result {
        write!(f, "no refusal has the number {}", self.0)
    }
}

impl From<Refusal> for u8 {
    ghost from_gives = { λ refusal number. number ≡ number_of refusal };

    fn from(refusal: Refusal) -> Self {
        refusal.number()
    }
}

impl From<Verdict> for u8 {
    ghost from_gives = { λ verdict number. number ≡ verdict_number verdict };

    fn from(verdict: Verdict) -> Self {
        verdict.number()
    }
}

impl Error for Refusal {}

impl Error for UnknownRefusal {}

impl From<Result<(), Refusal>> for Verdict {
    ghost from_gives = { λ outcome verdict. verdict ≡ verdict_of outcome };

    fn from(outcome: Result<(), Refusal>) -> Self {
        match outcome {
            Ok(()) => Verdict::Granted,
            Err(refusal) => Verdict::Refused(refusal),
        }
    }
}
