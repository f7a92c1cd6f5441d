//! The talk over a reader and a writer: each line is answered before the next read.
ghost use Rattle.std.specs.Prelude.{◌≡◌, ◌≢◌, ◌<◌, ℕ, [], ◌∷◌, length, take, IfOk, IfErr, OnOk, OnErr};
ghost use Rattle.std.specs.Io.{ReadsAtMost};
ghost use Rattle.std.specs.IoError.{error_kind};
ghost use Rattle.std.specs.Io.KnownBytes.{Appends, Consumes, IsAtEnd, Keeps};
ghost use Rattle.engine.specs.View.{state};
ghost use Rattle.session.specs.Transcripts.{Told, LinesTold, FrontTold, Leaves, Tells};
ghost use Rattle.session.specs.Points.{Goes, Breaks, Ends, BreaksEnd};
ghost use Rattle.session.specs.Stops.{IsRead, error_of};

use crate::line::Line;
use crate::text::Text;
use engine::Engine;
use model::Call;
use std::fmt;
use std::io::{self, ErrorKind, Read, Write};

/// Why a talk ended before its input did.
#[derive(Debug, Drop)]
pub enum Stop {
    Read(io::Error),
    Write(io::Error),
}

impl fmt::Display for Stop {
    fn fmt<W: fmt::Write>(&self, f: &mut fmt::Formatter<W>) -> fmt::Result {
        match self {
            Stop::Read(error) => write!(f, "reading: {error}"),
            Stop::Write(error) => write!(f, "writing: {error}"),
        }
    }
}

impl std::error::Error for Stop {}

impl From<Stop> for io::Error {
    ghost from_gives = { λ stop error. error ≡ error_of stop };

    fn from(stop: Stop) -> io::Error {
        match stop {
            Stop::Read(error) | Stop::Write(error) => error,
        }
    }
}

/// One read, again where a signal interrupts it.
fn read_some<R: Read>(reader: &mut R, piece: &mut [u8]) -> io::Result<usize>
    ensures bound { ReadsAtMost result piece.new }
    ensures ok { IfOk result (λ n. Consumes (R.remaining reader.old) (R.remaining reader.new) (take n piece.new)) }
    ensures end { IfOk result (λ n. n ≡ 0 → 0 < length piece.old → IsAtEnd (R.remaining reader.new)) }
    ensures err { OnErr result (Keeps (R.remaining reader.old) (R.remaining reader.new)) }
    ensures retried { IfErr result (λ e. error_kind e ≢ ErrorKind.Interrupted) }
{
    for _ in 0..u64::MAX {
        match reader.read(piece) {
            Ok(n) => return Ok(n),
            Err(error) => {
                if error.kind() != ErrorKind::Interrupted {
                    return Err(error);
                }
            }
        }
    }
    Err(io::Error::from(ErrorKind::TimedOut))
}

/// Writes the text. After an error the writer has a front of it, and nothing else is written.
// Not std's `write_all`, whose contract says nothing of what was written before an error.
fn put<W: Write>(writer: &mut W, text: &[u8]) -> io::Result<()>
    ensures ok { OnOk result (Appends (W.contents writer.old) (W.contents writer.new) text.now) }
    ensures err { OnErr result ((n : ℕ) × Appends (W.contents writer.old) (W.contents writer.new) (take n text.now)) }
{
    let mut at = 0;
    for _ in 0..u64::MAX {
        if at == text.len() {
            return writer.flush();
        }
        match writer.write(&text[at..]) {
            Ok(0) => return Err(io::Error::from(ErrorKind::WriteZero)),
            Ok(n) => at += n,
            Err(error) => {
                if error.kind() != ErrorKind::Interrupted {
                    return Err(error);
                }
            }
        }
    }
    Err(io::Error::from(ErrorKind::TimedOut))
}

/// What a line is told that says this call, or none.
fn reply(engine: &mut Engine, call: Option<Call>) -> Text
    ensures { Tells call engine.old engine.new result }
{
    let Some(call) = call else {
        return Text::of_no_call();
    };
    let answer = engine.perform(call);
    Text::of_answer(call, answer, engine.counts())
}

/// The machine, and the line of the input that has not ended yet.
#[derive(Debug, Drop)]
struct Session {
    engine: Engine,
    line: Line,
}

impl Session {
    ghost use Rattle.session.specs.Sessions.{Stands};
    ghost use Rattle.engine.specs.View.{Shows};

    /// Answers the line, which has ended, and begins the next.
    fn answer<W: Write>(&mut self, writer: &mut W) -> io::Result<()>
        ensures ok { OnOk result (Goes (Stands self.old) (Stands self.new) (10 ∷ []) (W.contents writer.old) (W.contents writer.new)) }
        ensures err { OnErr result (Breaks (Stands self.old) (10 ∷ []) (W.contents writer.old) (W.contents writer.new)) }
    {
        let text = reply(&mut self.engine, self.line.call());
        self.line = Line::new();
        put(writer, text.as_bytes())
    }

    /// Takes in one byte, and answers the line that it ends.
    fn byte<W: Write>(&mut self, writer: &mut W, b: u8) -> io::Result<()>
        ensures ok { OnOk result (Goes (Stands self.old) (Stands self.new) (b ∷ []) (W.contents writer.old) (W.contents writer.new)) }
        ensures err { OnErr result (Breaks (Stands self.old) (b ∷ []) (W.contents writer.old) (W.contents writer.new)) }
    {
        if b == b'\n' {
            return self.answer(writer);
        }
        self.line.push(b);
        Ok(())
    }

    /// Takes in the next piece of the input, and answers each line that ends in it.
    fn take<W: Write>(&mut self, writer: &mut W, piece: &[u8]) -> io::Result<()>
        ensures ok { OnOk result (Goes (Stands self.old) (Stands self.new) piece.now (W.contents writer.old) (W.contents writer.new)) }
        ensures err { OnErr result (Breaks (Stands self.old) piece.now (W.contents writer.old) (W.contents writer.new)) }
    {
        for b in piece {
            self.byte(writer, *b)?;
        }
        Ok(())
    }

    /// The input has ended: answers a last line that lacks its line end.
    fn finish<W: Write>(&mut self, writer: &mut W) -> io::Result<()>
        ensures ok { OnOk result (Ends (Stands self.old) (Shows self.new.engine) (W.contents writer.old) (W.contents writer.new)) }
        ensures err { OnErr result (BreaksEnd (Stands self.old) (W.contents writer.old) (W.contents writer.new)) }
    {
        if self.line.is_empty() {
            return Ok(());
        }
        self.answer(writer)
    }
}

const PIECE: usize = 4096;

/// Reads lines to the end of the input, and answers each before the next read. Memory does not grow with the input, nor with a line.
pub fn talk<R: Read, W: Write>(
    reader: &mut R,
    writer: &mut W,
    engine: Engine,
) -> Result<Engine, Stop>
    ensures told { OnOk result (Told (R.remaining reader.old) (W.contents writer.old) (W.contents writer.new) (state engine [])) }
    ensures machine { IfOk result (λ left. Leaves (R.remaining reader.old) (state engine []) left) }

    // After a failed read each line that had ended was told its answer; after any error a front of the answers was written.
    ensures read { IfErr result (λ e. IsRead e → LinesTold (R.remaining reader.old) (R.remaining reader.new) (W.contents writer.old) (W.contents writer.new) (state engine [])) }
    ensures err { OnErr result (FrontTold (R.remaining reader.old) (R.remaining reader.new) (W.contents writer.old) (W.contents writer.new) (state engine [])) }
    ensures retried { IfErr result (λ e. IsRead e → error_kind (error_of e) ≢ ErrorKind.Interrupted) }
{
    let mut piece = [0; PIECE];
    let mut session = Session {
        engine,
        line: Line::new(),
    };
    for _ in 0..u64::MAX {
        let n = read_some(reader, &mut piece).map_err(Stop::Read)?;
        if n == 0 {
            session.finish(writer).map_err(Stop::Write)?;
            return Ok(session.engine);
        }
        session.take(writer, &piece[..n]).map_err(Stop::Write)?;
    }
    Err(Stop::Read(io::Error::from(ErrorKind::TimedOut)))
}
