// The line that is written, made whole first so that one write takes it: between two, a reader could be gone or another
// program's line could stand.
ghost use Rattle.std.specs.Prelude.{◌≡◌, ◌≤◌, length, take, Some};

use std::io;
use std::io::Write;

// The bytes of a line so far: 16 digits or the fixed words, and the newline. An array, so that the program takes no
// memory from a heap.
#[derive(Drop)]
pub(crate) struct Line {
    bytes: [u8; 17],
    count: usize,
    ghost size: { 17 ≡ length bytes },
    ghost within: { count ≤ 17 },
}

impl Line {
    // A line with no byte.
    pub(crate) fn new() -> Line
        ensures { result.count ≡ 0 }
    {
        Line {
            bytes: [0; 17],
            count: 0,
        }
    }

    // All that was written to it.
    pub(crate) fn written(&self) -> &[u8]
        ensures { result.now ≡ take self.now.count self.now.bytes }
    {
        &self.bytes[..self.count]
    }
}

// Bytes that come behind those that are there, as far as there is room.
impl Write for Line {
    ghost contents = { λ line. Some (take line.count line.bytes) };

    fn write(&mut self, buf: &[u8]) -> io::Result<usize> {
        let start = self.count;
        let n = buf.len().min(17 - start);
        self.bytes[start..start + n].copy_from_slice(&buf[..n]);
        self.count = start + n;
        Ok(n)
    }

    fn flush(&mut self) -> io::Result<()> {
        Ok(())
    }
}
