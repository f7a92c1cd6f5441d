//! Composes each net of a stream and prints its verdict, its image's length and a hash of the whole output. The stream and the form
//! of the listing are described in reference/README.md; the stored listing is that of `reference`.
#![tactic(auto)]

use listing::List;
use std::io;
use std::io::{Read, Write};

/// A list, and how many bytes its image may have.
#[derive(Clone, Copy, Debug, PartialEq, Eq)]
struct Case<'a> {
    list: List<'a>,
    // a `u16`, not a `pair`: its type says that the output has so much room
    room: u16,
}

/// The next case of the stream, in the buffers that are lent; nothing where the stream has ended.
fn next_case<'a>(
    input: &mut impl Read,
    capacities: &'a mut [u8],
    relations: &'a mut [u8],
) -> Option<Case<'a>> {
    let [n, n_high, m, m_high, room, room_high] = listing::read_array::<6>(input)?;
    let lengths = [listing::pair(n, n_high), listing::pair(m, m_high)];
    Some(Case {
        list: listing::read_list(input, capacities, relations, lengths)?,
        room: u16::from_le_bytes([room, room_high]),
    })
}

/// Composes a case, and prints its line.
fn put_case(out: &mut impl Write, case: Case<'_>) -> io::Result<()> {
    let mut bytes: [u8; 65536] = listing::filled(165);
    let room = &mut bytes[..usize::from(case.room)];
    let composed = image::compose(case.list.capacities, case.list.relations, room);
    let (number, length) = listing::outcome(composed);
    writeln!(out, "{number} {length} {}", listing::hash(0, room))
}

// A proved loop has to end, so this one has a bound, which no stream comes up to.
fn main(rt: HostRuntime) -> io::Result<()> {
    let mut input = rt.stdin();
    let mut out = rt.stdout();
    let mut capacities = listing::large_buffer();
    let mut relations = listing::large_buffer();
    for _ in 0..u64::MAX {
        let Some(case) = next_case(&mut input, &mut capacities, &mut relations) else {
            break;
        };
        put_case(&mut out, case)?;
    }
    Ok(())
}
