//! The call that makes a request, and calls as bytes.
ghost use Rattle.std.specs.Prelude.{◌≡◌};
ghost use Rattle.model.specs.Machine.{call_of};
ghost use Rattle.model.specs.Calls.{ReadsCall};

use crate::{Call, Request};
use std::error::Error;
use std::fmt;

impl From<Request> for Call {
    ghost from_gives = { λ request call. call ≡ call_of request };

    fn from(request: Request) -> Self {
        if request.on {
            Call::Activate(request.context)
        } else {
            Call::Deactivate(request.context)
        }
    }
}

/// A first byte with which no call begins.
#[derive(Clone, Copy, Debug, PartialEq, Eq)]
pub struct UnknownCall(pub u8);

impl TryFrom<[u8; 3]> for Call {
    type Error = UnknownCall;

    ghost try_from_gives = { ReadsCall };

    fn try_from(bytes: [u8; 3]) -> Result<Self, UnknownCall> {
        let [kind, low, high] = bytes;
        let context = usize::from(u16::from_le_bytes([low, high]));
        match kind {
            0 => Ok(Call::Activate(context)),
            1 => Ok(Call::Deactivate(context)),
            2 => Ok(Call::Undo),
            3 => Ok(Call::Settle),
            _ => Err(UnknownCall(kind)),
        }
    }
}

impl fmt::Display for UnknownCall {
    fn fmt<W: fmt::Write>(&self, f: &mut fmt::Formatter<W>) -> fmt::Result {
        write!(f, "no call begins with the byte {}", self.0)
    }
}

impl Error for UnknownCall {}
