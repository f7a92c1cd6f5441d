//! Bytes written one behind the other.
ghost use Rattle.std.specs.Prelude.{◌≡◌, ◌+◌, ◌≤◌, length};
ghost use lib.Seq.{paste};

/// A lent output, and how much of it has been written.
#[derive(Debug, Drop)]
pub struct Writer<'a> {
    out: &'a mut [u8],
    written: usize,
}

impl<'a> Writer<'a> {
    pub fn new(out: &'a mut [u8]) -> Writer<'a>
        ensures same_output { result.out.ghost_name ≡ out.entry.ghost_name }
        ensures unwritten { result.out.now ≡ out.old }
        ensures none { result.written ≡ 0 }
    {
        Writer { out, written: 0 }
    }

    /// Writes the bytes behind those that were written before.
    // Inlined, so that an answer's five bytes are stored and not moved by a call.
    #[inline(always)]
    pub fn put(&mut self, bytes: &[u8])
        requires { self.old.written + length bytes.now ≤ length self.old.out.now }
        ensures same_output { self.new.out.ghost_name ≡ self.old.out.ghost_name }
        ensures put { self.new.out.now ≡ paste self.old.out.now self.old.written bytes.now (length bytes.now) }
        ensures written { self.new.written ≡ self.old.written + length bytes.now }
    {
        let end = self.written + bytes.len();
        self.out[self.written..end].copy_from_slice(bytes);
        self.written = end;
    }
}
