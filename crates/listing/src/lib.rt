//! What the programs share that print listings to be compared with those of `reference`: a hash, and reading.
#![tactic(auto)]

ghost use Rattle.std.specs.Prelude.{◌≡◌, ◌<◌, ◌≤◌, ◌+◌, ◌*◌, length, get_or, replicate, unwrap_or, IfSome};
ghost use Rattle.std.specs.Result.{result_ok};
ghost use Rattle.model.specs.Image.{bytes};
ghost use Rattle.model.specs.Refusals.{verdict_of, verdict_number};
ghost use Rattle.listing.specs.Hash.{folded, hashed};

mod loads;

pub use loads::{print_load, print_numbered};
use model::Refusal;
use std::io::Read;

/// A list that is to be composed: its two parts.
#[derive(Clone, Copy, Debug, PartialEq, Eq)]
pub struct List<'a> {
    pub capacities: &'a [u8],
    pub relations: &'a [u8],
}

/// The hash with one byte more.
pub fn fold(h: u64, b: u8) -> u64
    ensures { result ≡ folded h b }
{
    (h % 4294967291 * 257 + u64::from(b) + 1) % 4294967291
}

/// The hash with all these bytes more.
pub fn hash(h: u64, bytes: &[u8]) -> u64
    ensures { result ≡ hashed h bytes.now }
{
    bytes.iter().fold(h, |sum, b| fold(sum, *b))
}

/// The hash with the low k bytes of x more, the lowest first.
pub fn hash_number(h: u64, x: u64, k: usize) -> u64
    ensures { result ≡ hashed h (bytes k x) }
{
    let mut sum = h;
    let mut rest = x;
    for _ in 0..k {
        sum = fold(sum, (rest % 256) as u8);
        rest /= 256;
    }
    sum
}

/// So many of a byte.
pub fn filled<const N: usize>(b: u8) -> [u8; N]
    ensures long { N ≡ length result }
    ensures bytes { result ≡ replicate N b }
{
    [b; N]
}

/// 65,536 zeros: more than a length of two bytes asks for.
pub fn large_buffer() -> [u8; 65536]
    ensures long { 65536 ≡ length result }
    ensures zeros { result ≡ replicate 65536 0 }
{
    filled(0)
}

/// Reads to the buffer until it is full, the input ends or a read fails, and returns how many bytes came.
pub fn fill(input: &mut impl Read, buf: &mut [u8]) -> usize
    ensures { result ≤ length buf.new }
{
    let mut done = 0;
    while done < buf.len() {
        match input.read(&mut buf[done..]) {
            Ok(n) if n > 0 => done += n,
            _ => break,
        }
    }
    done
}

/// The next k bytes of the input, at the buffer's start; nothing where the input or the buffer ends before.
pub fn read<'a>(input: &mut impl Read, buf: &'a mut [u8], k: usize) -> Option<&'a [u8]>
    ensures { IfSome result (λ part. length part.now ≡ k) }
{
    let part = buf.get_mut(..k)?;
    if fill(input, part) < k {
        return None;
    }
    Some(part)
}

/// The next N bytes of the input; nothing where it ends before.
pub fn read_array<const N: usize>(input: &mut impl Read) -> Option<[u8; N]>
    ensures { IfSome result (λ bytes. length bytes ≡ N) }
{
    let mut buffer = [0; N];
    read(input, &mut buffer, N)?.first_chunk::<N>().copied()
}

/// The next list of the input, whose parts have these lengths, at the starts of the buffers; nothing where the input or a buffer ends before.
pub fn read_list<'a>(
    input: &mut impl Read,
    capacities: &'a mut [u8],
    relations: &'a mut [u8],
    lengths: [usize; 2],
) -> Option<List<'a>>
    ensures capacities { IfSome result (λ list. length list.capacities.now ≡ get_or lengths 0 0) }
    ensures relations { IfSome result (λ list. length list.relations.now ≡ get_or lengths 1 0) }
{
    let capacities = read(input, capacities, lengths[0])?;
    let relations = read(input, relations, lengths[1])?;
    Some(List {
        capacities,
        relations,
    })
}

/// How composing ended, as a listing has it: the verdict's number, and the image's length, 0 where there is none.
pub fn outcome(composed: Result<usize, Refusal>) -> (u8, usize)
    ensures number { result.0 ≡ verdict_number (verdict_of composed) }
    ensures long { result.1 ≡ unwrap_or (result_ok composed) 0 }
{
    match composed {
        Ok(length) => (0, length),
        Err(refusal) => (refusal.number(), 0),
    }
}

/// The number of two bytes, the low one first.
pub fn pair(low: u8, high: u8) -> usize
    ensures value { result ≡ low + 256 * high }
    ensures below { result < 65536 }
{
    usize::from(u16::from_le_bytes([low, high]))
}
