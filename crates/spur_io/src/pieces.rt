// A writer that is given large pieces.
ghost use Rattle.std.specs.Prelude.{◌≡◌, ◌<◌, ◌+◌, ◌≤◌, length, vec_len};
ghost use Rattle.spur_io.specs.declared.pieces.TheConstants.{PIECE};

use std::alloc::{AllocError, Global};
use std::io;
use std::io::Write;

// How many bytes the writer is given at once, at least, before the end.
const PIECE: usize = 65536;

// The first `used` bytes of the buffer wait to be handed on.
#[derive(Drop)]
pub struct Pieces<W: Write + Drop> {
    out: W,
    buffer: Vec<u8>,
    used: usize,
    ghost whole: { vec_len buffer ≡ PIECE },
    ghost room: { used < PIECE },
}

impl<W: Write + Drop> Pieces<W> {
    pub fn new(alloc: Global, out: W) -> Result<Pieces<W>, AllocError> {
        Ok(Pieces {
            out,
            buffer: vec![in alloc; 0; PIECE]?,
            used: 0,
        })
    }

    pub fn write(&mut self, bytes: &[u8]) -> io::Result<()> {
        let room = PIECE - self.used;
        if bytes.len() < room {
            self.gather(bytes);
            return Ok(());
        }
        let (front, rest) = bytes.split_at(room);
        self.buffer[self.used..].copy_from_slice(front);
        self.used = 0;
        self.out.write_all(&self.buffer)?;
        if rest.len() < PIECE {
            self.gather(rest);
            return Ok(());
        }
        self.out.write_all(rest)
    }

    pub fn finish(&mut self) -> io::Result<()> {
        let used = self.used;
        self.used = 0;
        self.out.write_all(&self.buffer[..used])?;
        self.out.flush()
    }

    fn gather(&mut self, bytes: &[u8])
        requires { self.old.used + length bytes.now < PIECE }
    {
        let end = self.used + bytes.len();
        self.buffer[self.used..end].copy_from_slice(bytes);
        self.used = end;
    }
}
