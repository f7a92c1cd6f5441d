//! Loads the image on standard input and prints what that gave, and then the verdict, one digit each, on images that differ from it a
//! little. The order and form are described in reference/README.md; the stored listing is that of `reference`.
#![tactic(auto)]

ghost use Rattle.std.specs.Prelude.{◌≡◌, ◌+◌, ◌<◌, ◌≤◌, length};

use model::Verdict;
use std::io;
use std::io::Write;

/// How many digits stand on the line that has not ended. A line has 64.
#[derive(Clone, Copy, Debug, Default, PartialEq, Eq)]
struct Row {
    digits: u8,
}

impl Row {
    /// Prints the verdict on an image as a digit: no refusal of a load has two.
    fn put(&mut self, out: &mut impl Write, image: &[u8]) -> io::Result<()> {
        write!(out, "{}", Verdict::from(image::check(image)).number())?;
        if self.digits < 63 {
            self.digits += 1;
            return Ok(());
        }
        self.digits = 0;
        writeln!(out)
    }

    /// Ends the line, unless nothing stands on it.
    fn end(self, out: &mut impl Write) -> io::Result<()> {
        if self.digits == 0 {
            return Ok(());
        }
        writeln!(out)
    }
}

/// The verdicts on the image with the lowest and with the highest bit of byte i turned; the byte is put back unless a write fails.
fn put_turned(row: &mut Row, out: &mut impl Write, image: &mut [u8], i: usize) -> io::Result<()>
    requires { i < length image.old }
    ensures { length image.new ≡ length image.old }
{
    image[i] ^= 1;
    row.put(out, image)?;
    image[i] ^= 129;
    row.put(out, image)?;
    image[i] ^= 128;
    Ok(())
}

/// The verdicts on the image with each byte turned.
fn put_all_turned(out: &mut impl Write, image: &mut [u8]) -> io::Result<()> {
    let mut row = Row::default();
    for i in 0..image.len() {
        put_turned(&mut row, out, image, i)?;
    }
    row.end(out)
}

/// The verdicts on the image's first bytes, of every length below its own.
fn put_truncated(out: &mut impl Write, image: &[u8]) -> io::Result<()> {
    let mut row = Row::default();
    for i in 0..image.len() {
        row.put(out, &image[..i])?;
    }
    row.end(out)
}

/// The verdict on two parts, one behind the other.
fn put_joined(row: &mut Row, out: &mut impl Write, front: &[u8], back: &[u8]) -> io::Result<()>
    requires { length front.now + length back.now ≤ 65536 }
{
    let mut whole = listing::large_buffer();
    let n = front.len() + back.len();
    whole[..front.len()].copy_from_slice(front);
    whole[front.len()..n].copy_from_slice(back);
    row.put(out, &whole[..n])
}

/// The verdicts on the image with a zero in front; with a zero, a one, the image itself behind.
fn put_extended(out: &mut impl Write, image: &[u8]) -> io::Result<()>
    requires { length image.now ≤ 16384 }
{
    let mut row = Row::default();
    put_joined(&mut row, out, &[0], image)?;
    put_joined(&mut row, out, image, &[0])?;
    put_joined(&mut row, out, image, &[1])?;
    put_joined(&mut row, out, image, image)?;
    row.end(out)
}

/// The verdicts on the image with every value of byte i, which is put back unless a write fails.
fn put_values(out: &mut impl Write, image: &mut [u8], i: usize) -> io::Result<()>
    requires { i < length image.old }
{
    let before = image[i];
    let mut row = Row::default();
    for value in 0..=u8::MAX {
        image[i] = value;
        row.put(out, image)?;
    }
    image[i] = before;
    row.end(out)
}

/// The same for each of the last 8 bytes, the trailer.
fn put_trailers(out: &mut impl Write, image: &mut [u8]) -> io::Result<()> {
    let n = image.len();
    for i in n.saturating_sub(8)..n {
        put_values(out, image, i)?;
    }
    Ok(())
}

/// The whole listing.
fn put_all(out: &mut impl Write, image: &mut [u8]) -> io::Result<()>
    requires { length image.old ≤ 16384 }
{
    let loaded = image::load(image);
    listing::print_load(out, loaded.verdict, &loaded.engine, loaded.part)?;
    put_all_turned(out, image)?;
    put_truncated(out, image)?;
    put_extended(out, image)?;
    put_trailers(out, image)
}

fn main(rt: HostRuntime) -> io::Result<()> {
    let mut out = rt.stdout();
    // longer than any image; of a longer input only so much is read
    let mut buf: [u8; 16384] = listing::filled(0);
    let n = listing::fill(&mut rt.stdin(), &mut buf);
    put_all(&mut out, &mut buf[..n])
}
