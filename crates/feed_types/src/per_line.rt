//! A value for each line of a venue.

ghost use Rattle.std.specs.Prelude.{◌≡◌};
ghost use Rattle.feed_types.specs.PerLines.{on_all, on_line, with_line};

use crate::line::LineId;

/// A value for each line of a venue.
#[derive(Clone, Copy, Debug)]
pub struct PerLine<T> {
    /// The value of line A.
    pub a: T,
    /// The value of line B.
    pub b: T,
    /// The value of Recovery.
    pub recovery: T,
}

impl<T: Copy> PerLine<T> {
    /// Returns the same value for each line.
    pub fn all(value: T) -> PerLine<T>
        ensures { result ≡ on_all value }
    {
        PerLine {
            a: value,
            b: value,
            recovery: value,
        }
    }

    /// Returns the line's value.
    pub fn on(&self, line: LineId) -> T
        ensures { result ≡ on_line line self.now }
    {
        match line {
            LineId::A => self.a,
            LineId::B => self.b,
            LineId::Recovery => self.recovery,
        }
    }

    /// Stores the line's value; those of the other lines stay.
    pub fn set(&mut self, line: LineId, value: T)
        ensures { self.new ≡ with_line line value self.old }
    {
        match line {
            LineId::A => self.a = value,
            LineId::B => self.b = value,
            LineId::Recovery => self.recovery = value,
        }
    }
}
