// Bytes on their way in: they are taken up to a line's end, and more are read where none are left.
ghost use Rattle.std.specs.Prelude.{◌≤◌};
ghost use Rattle.desk.specs.declared.input.TheConstants.{BUFFER};

use desk_lines::Line;
use std::io::Read;

// How many bytes are read at a time.
const BUFFER: usize = 65536;

// The bytes last read, in an array since the desk has no heap, and where those stand that are not yet taken.
#[derive(Drop)]
pub(crate) struct Input<R> {
    reader: R,
    bytes: [u8; BUFFER],
    next: usize,
    end: usize,
    ghost next_within: { next ≤ end },
    ghost end_within: { end ≤ BUFFER },
}

impl<R: Read> Input<R> {
    pub(crate) fn new(reader: R) -> Input<R> {
        Input {
            reader,
            bytes: [0; BUFFER],
            next: 0,
            end: 0,
        }
    }

    // Takes the bytes up to a line's end, or all that there are, and tells whether the line has ended.
    pub(crate) fn take_line(&mut self, line: &mut Line) -> bool {
        let untaken = &self.bytes[self.next..self.end];
        let end = untaken.iter().position(|&byte| byte == b'\n');
        let length = end.unwrap_or(untaken.len());
        for &byte in &untaken[..length] {
            line.push(byte);
        }
        self.next += length + end.is_some() as usize;
        end.is_some()
    }

    // Reads more bytes where all are taken, and tells whether there were any. A read that fails counts as the input's end.
    pub(crate) fn read_more(&mut self) -> bool {
        let count = self.reader.read(&mut self.bytes).unwrap_or(0);
        self.next = 0;
        self.end = count;
        0 < count
    }
}
