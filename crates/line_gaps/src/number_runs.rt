//! Runs of numbers.
ghost use Rattle.std.specs.Prelude.{◌≡◌, ◌≤◌, ◌<◌, ◌+◌, ℕ, Bool, ◌&&◌, ◌||◌, not, nat_lt, max, min, true, false, [], ◌∷◌, ◌++◌};
ghost use Rattle.line_gaps.specs.Runs.{AreAscending, HaveJust, IsLeast, count_in_run, is_in_run, is_in_runs, meets_runs, sum_in};

use crate::number_run::NumberRun;
use arrayvec::ArrayVec;

/// The most runs.
const MOST: usize = 64;

/// The latest 64 runs of numbers, in the order in which they were added.
#[derive(Drop)]
pub struct NumberRuns {
    pub runs: ArrayVec<NumberRun, MOST>,
    /// How many runs were dropped, since there were more.
    pub dropped: u64,
}

impl NumberRuns {
    /// No number.
    pub fn new() -> NumberRuns
        ensures none { HaveJust result (λ n. false) }
        ensures empty { result.runs.items ≡ [] }
    {
        NumberRuns {
            runs: ArrayVec::new(),
            dropped: 0,
        }
    }

    /// Returns whether there is no run.
    #[inline(always)]
    pub fn is_empty(&self) -> bool
        ensures { result ≡ true → self.now.runs.items ≡ [] }
    {
        self.runs.is_empty()
    }

    /// Forgets all numbers.
    pub fn clear(&mut self)
        ensures dropped { self.new.dropped ≡ self.old.dropped }
        ensures none { HaveJust self.new (λ n. false) }
        ensures empty { self.new.runs.items ≡ [] }
    {
        self.runs.clear();
    }

    /// Adds a run at the end, and drops the first one where there are 64.
    fn push(&mut self, run: NumberRun)
        ensures dropped { self.old.dropped ≤ self.new.dropped }
        ensures runs { self.new.dropped ≡ 0
            → self.new.runs.items ≡ self.old.runs.items ++ run ∷ [] }
    {
        if self.runs.is_full() {
            self.runs.remove(0);
            self.dropped = self.dropped.saturating_add(1);
        }
        self.runs.push(run);
    }

    /// Adds a run after the last one, which was taken out: the two become one where they are
    /// neighbours.
    fn push_both(&mut self, last: NumberRun, run: NumberRun)
        ensures dropped { self.old.dropped ≤ self.new.dropped }
        ensures has { run.first ≤ run.last → self.new.dropped ≡ 0 → (n : ℕ)
            → is_in_runs n self.new.runs.items
            ≡ (is_in_runs n (self.old.runs.items ++ last ∷ []) || is_in_run n run) }
        ensures order { self.new.dropped ≡ 0 → run.first ≤ run.last
            → AreAscending (self.old.runs.items ++ last ∷ [])
            → ((n : ℕ) → is_in_runs n (self.old.runs.items ++ last ∷ []) ≡ true → n < run.first)
            → AreAscending self.new.runs.items }
    {
        if last.is_before(run) {
            self.push(NumberRun {
                first: last.first,
                last: run.last,
            });
            return;
        }
        self.push(last);
        self.push(run);
    }

    /// Adds the numbers of a run. Where they go on from the last run, that becomes longer; else a
    /// run more is kept, and the first one dropped where there are 64.
    pub fn add(&mut self, run: NumberRun)
        ensures dropped { self.old.dropped ≤ self.new.dropped }
        ensures has { self.new.dropped ≡ 0 → (n : ℕ) → is_in_runs n self.new.runs.items
            ≡ (is_in_runs n self.old.runs.items || is_in_run n run) }
        ensures order { self.new.dropped ≡ 0 → AreAscending self.old.runs.items
            → (run.first ≤ run.last → (n : ℕ) → is_in_runs n self.old.runs.items ≡ true
            → n < run.first) → AreAscending self.new.runs.items }
    {
        if run.last < run.first {
            return;
        }
        match self.runs.pop() {
            Some(last) => self.push_both(last, run),
            None => self.push(run),
        }
    }

    /// Adds the numbers of a run that are below this one.
    fn add_below(&mut self, run: NumberRun, number: u64)
        ensures dropped { self.old.dropped ≤ self.new.dropped }
        ensures has { self.new.dropped ≡ 0 → (n : ℕ) → is_in_runs n self.new.runs.items
            ≡ (is_in_runs n self.old.runs.items || (is_in_run n run && nat_lt n number)) }
        ensures order { self.new.dropped ≡ 0 → AreAscending self.old.runs.items
            → ((n : ℕ) → is_in_runs n self.old.runs.items ≡ true → n < run.first)
            → AreAscending self.new.runs.items }
    {
        if run.first < number {
            let last = run.last.min(number - 1);
            self.add(NumberRun {
                first: run.first,
                last,
            });
        }
    }

    /// Adds the numbers of a run that are above this one.
    fn add_above(&mut self, run: NumberRun, number: u64)
        ensures dropped { self.old.dropped ≤ self.new.dropped }
        ensures has { self.new.dropped ≡ 0 → (n : ℕ) → is_in_runs n self.new.runs.items
            ≡ (is_in_runs n self.old.runs.items || (is_in_run n run && nat_lt number n)) }
        ensures order { self.new.dropped ≡ 0 → AreAscending self.old.runs.items
            → ((n : ℕ) → is_in_runs n self.old.runs.items ≡ true → n < max run.first (number + 1))
            → AreAscending self.new.runs.items }
    {
        if number < run.last {
            let first = run.first.max(number + 1);
            self.add(NumberRun {
                first,
                last: run.last,
            });
        }
    }

    /// Adds the numbers of these runs that aren't in the cut.
    fn add_outside(&mut self, runs: &[NumberRun], cut: NumberRun)
        ensures dropped { self.old.dropped ≤ self.new.dropped }
        ensures has { self.new.dropped ≡ 0 → (n : ℕ) → is_in_runs n self.new.runs.items
            ≡ (is_in_runs n self.old.runs.items
            || (is_in_runs n runs.now && not (is_in_run n cut))) }
        ensures order { self.new.dropped ≡ 0 → self.old.runs.items ≡ []
            → cut.first ≤ cut.last + 1 → AreAscending runs.now → AreAscending self.new.runs.items }
    {
        for run in runs {
            self.add_below(*run, cut.first);
            self.add_above(*run, cut.last);
        }
    }

    /// Takes the numbers of a run out.
    #[cold]
    #[inline(never)]
    pub fn cut(&mut self, cut: NumberRun)
        ensures dropped { self.old.dropped ≤ self.new.dropped }
        ensures has { (has : ℕ → Bool) → HaveJust self.old has
            → HaveJust self.new (λ n. has n && not (is_in_run n cut)) }
        ensures order { self.new.dropped ≡ 0 → cut.first ≤ cut.last + 1
            → AreAscending self.old.runs.items → AreAscending self.new.runs.items }
    {
        let mut left = NumberRuns {
            runs: ArrayVec::new(),
            dropped: self.dropped,
        };
        left.add_outside(self.runs.as_slice(), cut);
        *self = left;
    }

    /// Takes the numbers of a run out. Returns how many of them there were, where the runs are in
    /// order.
    #[inline(always)]
    pub fn take_out(&mut self, run: NumberRun) -> u64
        ensures count { result ≡ sum_in self.old.runs.items run }
        ensures dropped { self.old.dropped ≤ self.new.dropped }
        ensures has { (has : ℕ → Bool) → AreAscending self.old.runs.items → HaveJust self.old has
            → HaveJust self.new (λ n. has n && not (is_in_run n run)) }
        ensures order { self.new.dropped ≡ 0 → run.first ≤ run.last + 1
            → AreAscending self.old.runs.items → AreAscending self.new.runs.items }
    {
        let count = self.count_in(run);
        if count == 0 {
            return count;
        }
        self.cut(run);
        count
    }

    /// Returns whether one of the numbers is in the run.
    #[inline(always)]
    pub fn meets(&self, other: NumberRun) -> bool
        ensures { result ≡ meets_runs self.now.runs.items other }
    {
        self.runs.as_slice().iter().any(|run| run.meets(other))
    }

    /// Returns how many of the numbers are in the run, where the runs are apart.
    pub fn count_in(&self, other: NumberRun) -> u64
        ensures { result ≡ sum_in self.now.runs.items other }
    {
        let mut count: u64 = 0;
        for run in self.runs.as_slice() {
            count = count.saturating_add(run.both(other).len());
        }
        count
    }

    /// Returns how many of the numbers are at most this one, where the runs are in order.
    pub fn count(&self, highest: u64) -> u64
        ensures { AreAscending self.now.runs.items
            → result ≡ min (count_in_run (λ n. is_in_runs n self.now.runs.items)
            (record { first = 0; last = highest })) 18446744073709551615 }
    {
        self.count_in(NumberRun {
            first: 0,
            last: highest,
        })
    }

    /// Returns the first number of the first run.
    pub fn first(&self) -> Option<u64>
        ensures { AreAscending self.now.runs.items
            → IsLeast (λ n. is_in_runs n self.now.runs.items) result }
    {
        match self.runs.as_slice().first() {
            Some(run) => Some(run.first),
            None => None,
        }
    }

    /// Adds the numbers of these runs that are below this one.
    fn add_all_below(&mut self, runs: &[NumberRun], number: u64)
        ensures dropped { self.old.dropped ≤ self.new.dropped }
        ensures has { self.new.dropped ≡ 0 → (n : ℕ) → is_in_runs n self.new.runs.items
            ≡ (is_in_runs n self.old.runs.items || (is_in_runs n runs.now && nat_lt n number)) }
        ensures order { self.new.dropped ≡ 0 → AreAscending self.old.runs.items
            → AreAscending runs.now → ((m n : ℕ) → is_in_runs m self.old.runs.items ≡ true
            → is_in_runs n runs.now ≡ true → m < n) → AreAscending self.new.runs.items }
    {
        for run in runs {
            self.add_below(*run, number);
        }
    }

    /// Adds those of the other numbers that are below this one.
    pub(crate) fn add_those_below(&mut self, others: &NumberRuns, number: u64)
        ensures dropped { self.old.dropped ≤ self.new.dropped }
        ensures has { (has other : ℕ → Bool) → HaveJust self.old has → HaveJust others.now other
            → others.now.dropped ≡ 0
            → HaveJust self.new (λ n. has n || (other n && nat_lt n number)) }
        ensures order { self.new.dropped ≡ 0 → AreAscending self.old.runs.items
            → AreAscending others.now.runs.items
            → ((m n : ℕ) → is_in_runs m self.old.runs.items ≡ true
            → is_in_runs n others.now.runs.items ≡ true → m < n)
            → AreAscending self.new.runs.items }
    {
        self.add_all_below(others.runs.as_slice(), number);
    }
}
