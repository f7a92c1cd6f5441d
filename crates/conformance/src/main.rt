//! Composes and loads each net of a stream of frames, makes its calls one after the other, and prints what came of them. The stream and
//! the form of the listing are described in reference/README.md; the stored listing is that of `reference`.
#![tactic(auto)]

use engine::Engine;
use listing::List;
use model::{Answer, Call, Verdict};
use std::io;
use std::io::{Read, Write};

/// What a frame asks for behind its net: damages of the image, calls, and whether each call has a line.
#[derive(Clone, Copy, Debug, PartialEq, Eq)]
struct Asked {
    damages: u8,
    calls: usize,
    verbose: bool,
}

/// Why the listing ends: the stream has ended, or has what is no call; or a write failed.
#[derive(Debug, Drop)]
enum End {
    Stream,
    Write(io::Error),
}

impl From<io::Error> for End {
    fn from(error: io::Error) -> End {
        End::Write(error)
    }
}

/// The next call of the stream, three bytes.
fn read_call(input: &mut impl Read) -> Option<Call> {
    Call::try_from(listing::read_array(input)?).ok()
}

/// The hash with an answer more, and with the counts and totals after it.
fn hash_call(sum: u64, answer: Answer, engine: &Engine) -> u64 {
    let totals = engine.totals();
    let sum = listing::fold(sum, answer.verdict.number());
    let sum = listing::hash(sum, &answer.firings.to_le_bytes()[..2]);
    let sum = listing::hash(sum, &answer.forced.to_le_bytes()[..2]);
    let sum = listing::hash(sum, engine.counts());
    let sum = listing::hash(sum, &totals.granted.to_le_bytes());
    let sum = listing::hash(sum, &totals.refused.to_le_bytes());
    listing::hash(sum, &totals.undone.to_le_bytes())
}

/// Prints verdict, firings, forced ones and counts.
fn print_call(out: &mut impl Write, answer: Answer, engine: &Engine) -> io::Result<()> {
    let number = answer.verdict.number();
    write!(out, "{number} {} {}", answer.firings, answer.forced)?;
    for count in engine.counts() {
        write!(out, " {count}")?;
    }
    writeln!(out)
}

/// Makes the calls of a frame, and prints the hash over all of them and the totals.
fn make_calls(
    input: &mut impl Read,
    out: &mut impl Write,
    engine: &mut Engine,
    asked: Asked,
) -> Result<(), End> {
    let mut sum = 0;
    for _ in 0..asked.calls {
        let answer = engine.perform(read_call(input).ok_or(End::Stream)?);
        if asked.verbose {
            print_call(out, answer, engine)?;
        }
        sum = hash_call(sum, answer, engine);
    }
    let totals = engine.totals();
    writeln!(
        out,
        "{sum} {} {} {}",
        totals.granted, totals.refused, totals.undone
    )?;
    Ok(())
}

/// Damages the image in so many places, where each has a byte; nothing where the stream ends before.
fn damage(input: &mut impl Read, image: &mut [u8], count: u8) -> Option<()> {
    for _ in 0..count {
        let [low, high, b] = listing::read_array::<3>(input)?;
        if let Some(place) = image.get_mut(listing::pair(low, high)) {
            *place = b;
        }
    }
    Some(())
}

/// Damages an image, loads it and makes the calls.
fn run_image(
    input: &mut impl Read,
    out: &mut impl Write,
    image: &mut [u8],
    asked: Asked,
) -> Result<(), End> {
    damage(input, image, asked.damages).ok_or(End::Stream)?;
    let mut engine = Engine::empty();
    let (verdict, part) = match image::load_into(image, &mut engine) {
        Ok(part) => (Verdict::Granted, part),
        Err(refusal) => (Verdict::Refused(refusal), &[][..]),
    };
    listing::print_load(out, verdict, &engine, part)?;
    make_calls(input, out, &mut engine, asked)
}

/// Composes the net of a frame and runs its image.
fn run_frame(
    input: &mut impl Read,
    out: &mut impl Write,
    list: List<'_>,
    asked: Asked,
) -> Result<(), End> {
    // room enough for any image
    let mut room: [u8; 10240] = listing::filled(0);
    let composed = image::compose(list.capacities, list.relations, &mut room);
    let (number, length) = listing::outcome(composed);
    write!(out, "{number} ")?;
    let image = room.get_mut(..length).ok_or(End::Stream)?;
    run_image(input, out, image, asked)
}

/// Reads and runs one frame.
fn next_frame(input: &mut impl Read, out: &mut impl Write) -> Result<(), End> {
    let header = listing::read_array::<8>(input).ok_or(End::Stream)?;
    let [n, n_high, m, m_high, calls, calls_high, damages, verbose] = header;
    let lengths = [listing::pair(n, n_high), listing::pair(m, m_high)];
    let mut capacities = listing::large_buffer();
    let mut relations = listing::large_buffer();
    let list = listing::read_list(input, &mut capacities, &mut relations, lengths);
    let asked = Asked {
        damages,
        calls: listing::pair(calls, calls_high),
        verbose: verbose == 1,
    };
    run_frame(input, out, list.ok_or(End::Stream)?, asked)
}

// A proved loop has to end, so this one has a bound, which no stream comes up to.
fn main(rt: HostRuntime) -> io::Result<()> {
    let mut input = rt.stdin();
    let mut out = rt.stdout();
    for _ in 0..u64::MAX {
        match next_frame(&mut input, &mut out) {
            Ok(()) => {}
            Err(End::Stream) => break,
            Err(End::Write(error)) => return Err(error),
        }
    }
    Ok(())
}
