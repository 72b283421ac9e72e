// The line that is being read, as far as it has come.
ghost use Rattle.std.specs.Prelude.{◌≡◌, ◌+◌, ◌-◌, ◌^◌, ◌<◌, min, set, Err};
ghost use Rattle.desk_lines.specs.declared.faults.Fault.{Fault};
ghost use Rattle.desk_lines.specs.declared.lines.TheConstants.{KEPT};

use crate::commands::Command;
use crate::faults::Fault;
use crate::reading;
use crate::words::Words;

const LONGEST_LINE: usize = 200;

// The longest line, and a carriage return.
const KEPT: usize = LONGEST_LINE + 1;

// The bytes that are kept, in an array since the desk has no heap, and how long the line is. Where that is more than is kept, it alone counts.
#[derive(Clone, Copy)]
pub struct Line {
    bytes: [u8; KEPT],
    length: usize,
}

impl Line {
    pub fn new() -> Line
        ensures { result.length ≡ 0 }
    {
        Line {
            bytes: [0; KEPT],
            length: 0,
        }
    }

    // A byte more. One that is not kept is counted.
    pub fn push(&mut self, byte: u8)
        ensures kept { self.new.bytes ≡ set self.old.bytes self.old.length byte }
        ensures longer { self.new.length ≡ min (self.old.length + 1) (2 ^ 64 - 1) }
    {
        // By index: the contract of `get_mut` does not say what the array ends as.
        if self.length < KEPT {
            self.bytes[self.length] = byte;
        }
        self.length = self.length.saturating_add(1);
    }

    pub fn clear(&mut self)
        ensures { self.new.length ≡ 0 }
    {
        self.length = 0;
    }

    // What the line asks; none where nothing is to be done, since it has no word or is a remark. One carriage return at its end is not part of it.
    pub fn command(&self) -> Result<Option<Command>, Fault>
        ensures { KEPT < self.now.length → result ≡ Err Fault.LineTooLong }
    {
        let kept = self.bytes.get(..self.length).ok_or(Fault::LineTooLong)?;
        let line = kept.strip_suffix(b"\r").unwrap_or(kept);
        if LONGEST_LINE < line.len() {
            return Err(Fault::LineTooLong);
        }
        reading::read(Words::of(line))
    }
}
