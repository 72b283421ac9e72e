// Keys on the hall line and readings in counts. The trade writes both as bare numbers; here each is a kind of its own.
ghost use Rattle.std.specs.Prelude.{◌≡◌};
ghost use Rattle.rules.specs.HallLine.{own_key};
ghost use Rattle.rules.specs.BoxSaysNo.{key_fault};
ghost use Rattle.hall.specs.Says.{answer_says, key_says};
ghost use Rattle.hall.specs.MadeKeys.{first_made, key_made};

use crate::answers::{Answer, Refusal};

// A key, as given: any number can stand here, and `fault` judges it.
#[derive(Clone, Copy, Debug, PartialEq, Eq, PartialOrd, Ord)]
pub struct Key(pub u32);

// A reading in counts, as given.
#[derive(Clone, Copy, Debug, PartialEq, Eq, PartialOrd, Ord)]
pub struct Reading(pub u16);

impl Key {
    pub const HIGHEST: Key = Key(2097151);

    pub const PER_MACHINE: u32 = 32768;

    // One for each reading.
    const PER_SENSOR: u32 = 1024;

    const MACHINES: u32 = 64;

    const SENSORS: u32 = 32;

    // A machine's first key: its number times the keys per machine. There are machines 0 to 63, and another has none.
    pub fn first_of(machine: u32) -> Option<Key>
        ensures { key_says result ≡ first_made machine }
    {
        if machine < Key::MACHINES {
            Some(Key(machine * Key::PER_MACHINE))
        } else {
            None
        }
    }

    // The key of a machine's sensor at a reading; none where one of the three is out of its range.
    pub fn of(machine: u32, sensor: u32, reading: Reading) -> Option<Key>
        ensures { key_says result ≡ key_made machine sensor reading.0 }
    {
        let counts = reading.0 as u32;
        if Key::MACHINES <= machine {
            return None;
        }
        if Key::SENSORS <= sensor {
            return None;
        }
        if Key::PER_SENSOR <= counts {
            return None;
        }
        Some(Key(machine * Key::PER_MACHINE + sensor * Key::PER_SENSOR + counts))
    }

    // Refused by 4 where the key is above the highest.
    pub fn fault(self) -> Answer
        ensures { answer_says result ≡ key_fault self.0 }
    {
        if Key::HIGHEST < self {
            Err(Refusal::KeyAbove)
        } else {
            Ok(())
        }
    }

    // Whether the key is among the machine's own.
    pub(crate) fn belongs_to(self, machine: u32) -> bool
        ensures { result ≡ own_key machine self.0 }
    {
        self.0 / Key::PER_MACHINE == machine
    }
}
