//! Figures of the latest periods.
ghost use Rattle.std.specs.Prelude.{◌≡◌, ◌≤◌, [], length, slice_get};
ghost use Rattle.report_rows.specs.PeriodLists.{AreNoPeriods, Enters, is_begun_at, period_place_of};

use arrayvec::ArrayVec;

/// How many periods are kept.
const KEPT: usize = 16;

/// A period of the clock, by when it began, and its figures.
#[derive(Clone, Copy, Debug, Default, PartialEq, Eq)]
pub struct KeptPeriod<T> {
    /// In nanoseconds from 1970 on.
    pub begin: u64,
    pub figures: T,
}

/// The figures of the latest periods in which something came, 16 at most, the latest one first.
#[derive(Drop)]
pub struct KeptPeriods<T> {
    pub kept: ArrayVec<KeptPeriod<T>, 16>,
    /// How often something came in a period before the earliest one of 16.
    pub late: u64,
}

/// The place of the period in which something counts, and the period that is kept no more.
#[derive(Clone, Copy, Debug, PartialEq, Eq)]
pub struct Entered<T> {
    pub place: usize,
    pub over: Option<KeptPeriod<T>>,
}

/// Returns how many of the first periods begin after this time.
#[inline(always)]
fn place_of<T>(periods: &[KeptPeriod<T>], begin: u64) -> usize
    ensures place { result ≡ period_place_of begin periods.now }
    ensures within { result ≤ length periods.now }
{
    periods
        .iter()
        .position(|period| period.begin <= begin)
        .unwrap_or(periods.len())
}

/// Returns whether the period at a place began at this time.
#[inline(always)]
fn is_at<T>(periods: &[KeptPeriod<T>], place: usize, begin: u64) -> bool
    ensures { result ≡ is_begun_at begin (slice_get periods.now place) }
{
    match periods.get(place) {
        Some(period) => period.begin == begin,
        None => false,
    }
}

impl<T: Copy + Default> KeptPeriods<T> {
    /// No period.
    pub fn new() -> KeptPeriods<T>
        ensures { AreNoPeriods result }
    {
        KeptPeriods {
            kept: ArrayVec::new(),
            late: 0,
        }
    }

    /// Forgets all periods.
    pub fn clear(&mut self)
        ensures kept { self.new.kept.items ≡ [] }
        ensures late { self.new.late ≡ self.old.late }
    {
        self.kept.clear();
    }

    /// Enters the period that began at this time, without figures where it is new, in the place of
    /// the earliest one where 16 are kept. What is earlier than all of 16 goes to the earliest one.
    #[inline(always)]
    pub fn enter(&mut self, begin: u64, none: &T) -> Entered<T>
        ensures { Enters begin none.now self.old self.new result }
    {
        let place = place_of(self.kept.as_slice(), begin);
        if is_at(self.kept.as_slice(), place, begin) {
            return Entered { place, over: None };
        }
        let kept = self.kept.len();
        if place >= KEPT {
            self.late = self.late.saturating_add(1);
            return Entered {
                place: KEPT - 1,
                over: None,
            };
        }
        let new = KeptPeriod {
            begin,
            figures: *none,
        };
        if kept < KEPT {
            self.kept.insert(place, new);
            return Entered { place, over: None };
        }
        let over = self.kept.pop();
        self.kept.insert(place, new);
        Entered { place, over }
    }
}
