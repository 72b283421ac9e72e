// Places on the wheel.
ghost use Rattle.std.specs.Prelude.{◌≡◌, ◌≤◌};
ghost use Rattle.rules.specs.Wheel.{wheel_places, next_place, off_wheel};

pub(crate) const PLACES: u32 = 1024;

// A place on the wheel, as given, counted from 1: any number can stand here, and `turn` judges it. It is a kind of its own, so that none is typed for a level.
#[derive(Clone, Copy, Debug, PartialEq, Eq, PartialOrd, Ord)]
pub struct Place(pub u32);

impl Place {
    // Whether it is no place on the wheel.
    pub(crate) fn is_off(self) -> bool
        ensures { result ≡ (off_wheel self.0).applies }
    {
        !(1..=PLACES).contains(&self.0)
    }

    // The place that follows; after the last comes the first.
    #[tactic(auto, unfolding(rules::specs::Wheel::next_place))]
    pub(crate) fn next(self) -> Place
        requires { self.0 ≤ wheel_places }
        ensures { result.0 ≡ next_place self.0 }
    {
        if self.0 == PLACES {
            Place(1)
        } else {
            Place(self.0 + 1)
        }
    }
}
