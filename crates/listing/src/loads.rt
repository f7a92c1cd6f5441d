//! The line that tells what a load gave.
ghost use Rattle.std.specs.Prelude.{OnOk};
ghost use Rattle.std.specs.Io.KnownBytes.{Appends};
ghost use Rattle.engine.specs.View.{net_of};
ghost use Rattle.listing.specs.Loads.{load_text, numbered_text};

use crate::hash;
use engine::Engine;
use model::Verdict;
use std::io;
use std::io::Write;

/// Prints a verdict's number, contexts, relations, the record part's length, and the hash of capacities, relations and records. Any number will
/// do: also one that no verdict has.
pub fn print_numbered<W: Write>(
    out: &mut W,
    number: u8,
    engine: &Engine,
    records: &[u8],
) -> io::Result<()>
    ensures { OnOk result (Appends (W.contents out.old) (W.contents out.new) (numbered_text number (net_of engine.now) records.now)) }
{
    let capacities = hash(0, engine.capacities());
    // row by row, as each array tells its three bytes: `as_flattened` does not say that a row has three
    let list = engine
        .relations()
        .iter()
        .fold(capacities, |sum, &[kind, a, b]| hash(sum, &[kind, a, b]));
    writeln!(
        out,
        "{} {} {} {} {}",
        number,
        engine.contexts(),
        engine.relation_count(),
        records.len(),
        hash(list, records)
    )
}

/// The same of a verdict.
pub fn print_load<W: Write>(
    out: &mut W,
    verdict: Verdict,
    engine: &Engine,
    records: &[u8],
) -> io::Result<()>
    ensures { OnOk result (Appends (W.contents out.old) (W.contents out.new) (load_text verdict (net_of engine.now) records.now)) }
{
    print_numbered(out, verdict.number(), engine, records)
}
