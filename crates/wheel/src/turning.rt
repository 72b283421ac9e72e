// A turn of the wheel.
ghost use Rattle.std.specs.Prelude.{◌≡◌};
ghost use Rattle.rules.specs.Wheel.{turn_answer};
ghost use Rattle.wheel.specs.Says.{turned_says};

use crate::levels;
use crate::places::Place;
use hall::Refusal;

// The level at a place, and the next place.
#[derive(Clone, Copy, Debug, PartialEq, Eq)]
pub struct Turned {
    pub level: u32,
    pub next: Place,
}

// The level at a place on the wheel, and the next place. Place 0 and those above 1,024 are refused by 7, as a level that is none: such a place has none.
pub fn turn(place: Place) -> Result<Turned, Refusal>
    ensures { turned_says result ≡ turn_answer place.0 }
{
    if place.is_off() {
        return Err(Refusal::LevelWrong);
    }
    Ok(Turned {
        level: levels::level_at((place.0 - 1) as usize),
        next: place.next(),
    })
}
