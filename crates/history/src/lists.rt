//! The run of a list of calls.
ghost use Rattle.std.specs.Prelude.{◌≡◌, ◌<◌, false, [], map, IfSome};
ghost use Rattle.std.specs.Option.{unwrap_or};
ghost use Rattle.std.specs.List.{list_any};
ghost use Rattle.model.specs.Calls.{call_of_bytes, is_unknown};
ghost use Rattle.history.specs.Reports.{report_from, ran, Reports};
ghost use Rattle.engine.specs.View.{state};

use crate::answers::{answer_bytes, tally_bytes};
use crate::calls::known_calls;
use crate::writer::Writer;
use engine::Engine;
use model::Call;

// Runs a list of known calls on an engine, where the output has room for the report: the answers, then the counts and the totals after them.
// The report's size fits: a slice has fewer than 2^63 bytes, and three of a call become five.
fn run_on(engine: &mut Engine, calls: &[[u8; 3]], out: &mut [u8]) -> Option<usize>
    requires { list_any is_unknown calls.now ≡ false }
    ensures { Reports (report_from (state engine.old []) (map call_of_bytes calls.now)) out.old result out.new }
{
    let size = 5 * calls.len() + (engine.contexts() + 12);
    if out.len() < size {
        return None;
    }
    let mut writer = Writer::new(out);
    for &bytes in calls {
        let call = Call::try_from(bytes).unwrap();
        let answer = engine.perform(call);
        writer.put(&answer_bytes(answer));
    }
    writer.put(engine.counts());
    writer.put(&tally_bytes(engine.totals()));
    Some(size)
}

/// Runs a list of calls on the net freshly loaded from an image: how many bytes were written, and none where nothing was.
pub fn run(image: &[u8], calls: &[u8], out: &mut [u8]) -> Option<usize>
    ensures ran { (record { written = unwrap_or result 0; output = out.new }) ≡ ran image.now calls.now out.old }
    ensures some { IfSome result (λ written. 0 < written) }
{
    let calls = known_calls(calls)?;
    let mut engine = Engine::empty();
    // a refused image leaves the engine of the net without contexts
    let _ = image::load_into(image, &mut engine);
    run_on(&mut engine, calls, out)
}
