//! What rows say of times.
ghost use Rattle.std.specs.Prelude.{◌≡◌};
ghost use Rattle.best_rows.specs.Times.{row_time};

/// What a row says of the time of its record.
#[derive(Clone, Copy, Debug, PartialEq, Eq)]
pub enum RowTime {
    /// Nothing: the rows have no times.
    Absent,
    /// The time in nanoseconds from 1970 on, or that it isn't known.
    Given(Option<u64>),
}

impl RowTime {
    /// What a row says of this time, where rows are `timed` or not.
    #[inline(always)]
    pub fn of(timed: bool, time: Option<u64>) -> RowTime
        ensures { result ≡ row_time timed time }
    {
        if timed {
            RowTime::Given(time)
        } else {
            RowTime::Absent
        }
    }
}
