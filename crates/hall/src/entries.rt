// Entries: a band to be inserted, with the levels for the nodes at its ends.
ghost use Rattle.std.specs.Prelude.{◌≡◌};
ghost use Rattle.rules.specs.NodesLanesEdges.{is_level};
ghost use Rattle.rules.specs.BoxSaysNo.{fault_of};
ghost use Rattle.hall.specs.Says.{answer_says};
ghost use Rattle.hall.specs.SaidBand.{said};

use crate::answers::{Answer, Refusal};
use crate::bands::Band;

// An entry, as given: any numbers can stand here, and `fault` judges them.
#[derive(Clone, Copy, Debug, PartialEq, Eq)]
pub struct Entry {
    pub band: Band,
    pub low_level: u32,
    pub high_level: u32,
}

impl Entry {
    // The first of 2 to 7 that applies to the band and its levels.
    pub fn fault(self) -> Answer
        ensures { answer_says result ≡ fault_of (said self.band) self.low_level self.high_level }
    {
        self.band.fault()?;
        if is_level(self.low_level) & is_level(self.high_level) {
            Ok(())
        } else {
            Err(Refusal::LevelWrong)
        }
    }
}

const HIGHEST_LEVEL: u32 = 8;

fn is_level(level: u32) -> bool
    ensures { result ≡ is_level level }
{
    (1 <= level) & (level <= HIGHEST_LEVEL)
}
