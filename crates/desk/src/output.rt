// Answers on their way out: they are kept until all that was read is done, or their store fills.
ghost use Rattle.std.specs.Prelude.{◌≤◌};
ghost use Rattle.desk.specs.declared.output.TheConstants.{BUFFER};

use desk_answers::{NotDone, Told};
use std::fmt;
use std::fmt::Write;

// The most bytes that are kept.
const BUFFER: usize = 65536;

// More bytes than any answer has.
const ANSWER_ROOM: usize = 8192;

// The bytes that are kept, in an array since the desk has no heap, and how many they are.
#[derive(Drop)]
pub(crate) struct Output {
    bytes: [u8; BUFFER],
    kept: usize,
    ghost kept_within: { kept ≤ BUFFER },
}

impl Output {
    pub(crate) fn new() -> Output {
        Output {
            bytes: [0; BUFFER],
            kept: 0,
        }
    }

    // Keeps an answer's line, and writes out those before it where there might be no room.
    pub(crate) fn tell(&mut self, rt: &impl Print, answer: Result<Told, NotDone>) {
        if BUFFER - self.kept < ANSWER_ROOM {
            self.flush(rt);
        }
        let _ = match answer {
            Ok(told) => writeln!(self, "{told}"),
            Err(not_done) => writeln!(self, "{not_done}"),
        };
    }

    // Writes out the answers that are kept. A write that fails changes nothing of what the desk does.
    pub(crate) fn flush(&mut self, rt: &impl Print) {
        let _ = rt.write_all(&self.bytes[..self.kept]);
        self.kept = 0;
    }
}

// What has no room is dropped.
impl fmt::Write for Output {
    fn write_str(&mut self, text: &str) -> fmt::Result {
        let length = text.len().min(BUFFER - self.kept);
        let end = self.kept + length;
        self.bytes[self.kept..end].copy_from_slice(&text.as_bytes()[..length]);
        self.kept = end;
        Ok(())
    }
}
