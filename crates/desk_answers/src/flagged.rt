// The numbers whose flags are set, ascending, each with a blank before it.
use hall::Band;
use std::fmt;
use std::fmt::{Display, Formatter};

#[derive(Clone, Copy)]
pub(crate) struct Flagged<'a>(pub(crate) &'a [u64; 16]);

impl Display for Flagged<'_> {
    fn fmt<W: fmt::Write>(&self, f: &mut Formatter<W>) -> fmt::Result {
        for number in 0..=Band::HIGHEST_NUMBER {
            if flags::is_set(self.0, number) {
                write!(f, " {number}")?;
            }
        }
        Ok(())
    }
}
