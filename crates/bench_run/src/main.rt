//! The program bench-run: loads bench.net, reads one call a line, and prints a line for each (docs/MACHINE.md, "bench-run").
#![tactic(auto)]

use engine::Engine;
use session::talk;
use std::fs::File;
use std::io;
use std::rt::Files;

/// The engine of the net in bench.net. A missing or unreadable file reads as an empty one, which is refused and gives the empty net.
fn load(rt: &impl Files) -> Engine {
    let mut engine = Engine::empty();
    let Ok(mut file) = File::open(rt, "bench.net") else {
        return engine;
    };
    // Longer than any image, of which the longest has 9,752 bytes: the first bytes of a file that does not fit are refused, as the whole would be.
    let mut bytes: [u8; 16384] = listing::filled(0);
    let n = listing::fill(&mut file, &mut bytes);
    // a refused image leaves the engine of the net without contexts
    let _ = image::load_into(&bytes[..n], &mut engine);
    engine
}

fn main(rt: HostRuntime) -> io::Result<()> {
    talk(&mut rt.stdin(), &mut rt.stdout(), load(&rt))?;
    Ok(())
}
