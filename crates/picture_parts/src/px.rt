// Lengths of the picture.

use std::fmt;
use std::ops::{Add, Div, Mul, Sub};

/// A length in pixels, or a place as its distance from the left or the top edge. Sums and products stop at the end of the type, and
/// differences at 0.
#[derive(Clone, Copy, PartialEq, Eq, PartialOrd, Ord)]
pub struct Px(pub usize);

impl Add for Px {
    type Output = Px;

    fn add(self, other: Px) -> Px {
        Px(self.0.saturating_add(other.0))
    }
}

impl Sub for Px {
    type Output = Px;

    fn sub(self, other: Px) -> Px {
        Px(self.0.saturating_sub(other.0))
    }
}

impl Mul<usize> for Px {
    type Output = Px;

    fn mul(self, times: usize) -> Px {
        Px(self.0.saturating_mul(times))
    }
}

/// A part of a length, rounded down. A length in no parts stays whole.
impl Div<usize> for Px {
    type Output = Px;

    fn div(self, parts: usize) -> Px {
        Px(self.0 / parts.max(1))
    }
}

impl fmt::Display for Px {
    fn fmt<W: fmt::Write>(&self, f: &mut fmt::Formatter<W>) -> fmt::Result {
        write!(f, "{}", self.0)
    }
}
