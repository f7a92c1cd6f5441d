//! Calls as bytes.
ghost use Rattle.std.specs.Prelude.{◌≡◌, true, false, map, IfSome, IfNone};
ghost use Rattle.std.specs.List.{list_any};
ghost use Rattle.model.specs.Calls.{call_of_bytes, is_unknown};
ghost use Rattle.history.specs.Encoding.{calls_in, no_calls};

use model::Call;

/// The calls that bytes are, where these are whole calls, each of the four.
pub fn known_calls(bytes: &[u8]) -> Option<&[[u8; 3]]>
    ensures none { IfNone result (no_calls bytes.now ≡ true) }
    ensures some { IfSome result (λ calls. no_calls bytes.now ≡ false) }
    ensures calls { IfSome result (λ calls. map call_of_bytes calls.now ≡ calls_in bytes.now) }
    ensures known { IfSome result (λ calls. list_any is_unknown calls.now ≡ false) }
{
    let (calls, rest) = bytes.as_chunks::<3>();
    let known = rest.is_empty() && !calls.iter().any(|&bytes| Call::try_from(bytes).is_err());
    known.then_some(calls)
}
