//! The numbers of a venue that are missing or were given up.
ghost use Rattle.std.specs.Prelude.{◌≡◌, ◌≤◌, ◌<◌, ◌-◌, ◌+◌, ℕ, Bool, true, ◌&&◌, ◌||◌, not, nat_le, nat_lt, max, [], ◌∷◌, List, Option, None, Ok};
ghost use Rattle.event_sinks.specs.SinkEvents.{SinkEvent, TimedEvent, timed_event, told_packet, told_skip};
ghost use Rattle.line_arbiter.specs.declared.outcome.Outcome.TheVariants.{Taken};
ghost use Rattle.line_gaps.specs.Runs.{AreAscending, HaveJust, is_in_run, is_in_runs, meets_runs};
ghost use Rattle.line_gaps.specs.Gaps.{last_number_told};
ghost use Rattle.line_gaps.specs.Missing.{CountsNumbers, FitsLost, KeepsDropped, KeepsKnown, given_up_by, is_learnt};

use crate::gap_sums::raised;
use crate::heard_packet::TimedPacket;
use crate::number_run::NumberRun;
use crate::number_runs::NumberRuns;

/// The numbers of a venue's present session that are missing, and those that were given up.
#[derive(Drop)]
pub struct LostNumbers {
    /// The numbers that packets tell of and that neither came nor were given up.
    pub missing: NumberRuns,
    /// The numbers that a skip passed before they came.
    pub given_up: NumberRuns,
    /// The highest number that a packet tells of.
    pub highest: u64,
    /// All numbers below this one came or were given up.
    pub floor: u64,
}

impl LostNumbers {
    /// None.
    pub fn new() -> LostNumbers
        ensures { FitsLost [] result }
    {
        LostNumbers {
            missing: NumberRuns::new(),
            given_up: NumberRuns::new(),
            highest: 0,
            floor: 0,
        }
    }

    /// Takes out the numbers of a packet, which came. Returns whether one of them was missing.
    #[inline(always)]
    fn bring(&mut self, run: NumberRun) -> bool
        ensures found { result ≡ meets_runs self.old.missing.runs.items run }
        ensures dropped { self.old.missing.dropped ≤ self.new.missing.dropped }
        ensures missing { (has : ℕ → Bool) → HaveJust self.old.missing has
            → HaveJust self.new.missing (λ n. has n && not (is_in_run n run)) }
        ensures order { self.new.missing.dropped ≡ 0 → run.first ≤ run.last + 1
            → AreAscending self.old.missing.runs.items → AreAscending self.new.missing.runs.items }
        ensures kept { KeepsKnown self.old self.new }
    {
        if !self.missing.meets(run) {
            return false;
        }
        self.missing.cut(run);
        true
    }

    /// Notes that numbers up to this one are missing, but for those known of or given up.
    #[cold]
    #[inline(never)]
    fn miss(&mut self, below: u64)
        requires { self.old.highest < below }
        ensures dropped { self.old.missing.dropped ≤ self.new.missing.dropped }
        ensures missing { self.new.missing.dropped ≡ 0
            → (n : ℕ) → is_in_runs n self.new.missing.runs.items
            ≡ (is_in_runs n self.old.missing.runs.items
            || is_learnt self.old.highest self.old.floor below n) }
        ensures order { self.new.missing.dropped ≡ 0 → AreAscending self.old.missing.runs.items
            → ((n : ℕ) → is_in_runs n self.old.missing.runs.items ≡ true → n ≤ self.old.highest)
            → AreAscending self.new.missing.runs.items }
        ensures kept { KeepsKnown self.old self.new }
    {
        let first = (self.highest + 1).max(self.floor);
        if first <= below {
            self.missing.add(NumberRun { first, last: below });
        }
    }

    /// Notes that there are numbers up to `last`. Those up to `below` are missing, unless they were
    /// known of or given up before.
    #[inline(always)]
    fn learn(&mut self, below: u64, last: u64)
        ensures dropped { self.old.missing.dropped ≤ self.new.missing.dropped }
        ensures missing { self.new.missing.dropped ≡ 0
            → (n : ℕ) → is_in_runs n self.new.missing.runs.items
            ≡ (is_in_runs n self.old.missing.runs.items
            || is_learnt self.old.highest self.old.floor below n) }
        ensures order { self.new.missing.dropped ≡ 0 → AreAscending self.old.missing.runs.items
            → ((n : ℕ) → is_in_runs n self.old.missing.runs.items ≡ true → n ≤ self.old.highest)
            → AreAscending self.new.missing.runs.items }
        ensures highest { self.new.highest ≡ max self.old.highest last }
        ensures floor { self.new.floor ≡ self.old.floor }
        ensures given_up { self.new.given_up ≡ self.old.given_up }
    {
        if below > self.highest {
            self.miss(below);
        }
        self.highest = self.highest.max(last);
    }

    /// Takes a packet whose messages came. Returns whether one of them was missing.
    #[inline(always)]
    pub fn take_messages(&mut self, packet: &TimedPacket) -> bool
        ensures dropped { KeepsDropped self.old self.new }
        ensures found { result ≡ meets_runs self.old.missing.runs.items (record {
          first = packet.now.number;
          last = last_number_told packet.now.number packet.now.count;
        }) }
        ensures fits { (events : List TimedEvent) (venue bytes new repeated : ℕ)
            → FitsLost events self.old
            → FitsLost (timed_event packet.now.time (told_packet venue packet.now.line
            packet.now.number packet.now.count bytes (Ok (Taken new repeated))) ∷ events)
            self.new }
    {
        let found = self.bring(packet.run());
        self.learn(packet.number.saturating_sub(1), packet.last());
        found
    }

    /// Takes a packet of which nothing came, but which tells of the numbers up to its last.
    #[inline(always)]
    pub fn take_numbers(&mut self, packet: &TimedPacket)
        ensures dropped { KeepsDropped self.old self.new }
        ensures fits { (events : List TimedEvent) (last : TimedEvent)
            → CountsNumbers events last packet.now → FitsLost events self.old
            → FitsLost (last ∷ events) self.new }
    {
        self.learn(packet.last(), packet.last());
    }

    /// Returns the numbers below this one that nothing is known of and that weren't given up.
    fn unknown_below(&self, number: u64) -> NumberRun
        ensures { (n : ℕ) → is_in_run n result ≡ (nat_lt self.now.highest n
            && (nat_le self.now.floor n && nat_lt n number)) }
    {
        if number <= self.highest {
            return NumberRun { first: 1, last: 0 };
        }
        NumberRun {
            first: (self.highest + 1).max(self.floor),
            last: number - 1,
        }
    }

    /// Gives the missing numbers below this one up, and those that nothing is known of. Returns how
    /// many.
    #[inline(never)]
    pub fn give_up(&mut self, number: u64) -> u64
        ensures count { (events : List TimedEvent) → FitsLost events self.old
            → self.old.missing.dropped ≡ 0 → result ≡ given_up_by events number }
        ensures dropped { KeepsDropped self.old self.new }
        ensures fits { (events : List TimedEvent) (time : Option ℕ) (venue : ℕ)
            → FitsLost events self.old
            → FitsLost (timed_event time (told_skip venue number (Ok tt)) ∷ events) self.new }
    {
        let below = NumberRun {
            first: 0,
            last: number.saturating_sub(1),
        };
        let unknown = self.unknown_below(number);
        let count = raised(self.missing.count_in(below), unknown.len());
        self.given_up.add_those_below(&self.missing, number);
        self.given_up.add(unknown);
        self.missing.cut(below);
        self.floor = self.floor.max(number);
        count
    }

    /// Forgets all numbers, for a next session.
    pub fn renew(&mut self)
        ensures dropped { KeepsDropped self.old self.new }
        ensures fits { FitsLost [] self.new }
    {
        self.missing.clear();
        self.given_up.clear();
        self.highest = 0;
        self.floor = 0;
    }
}
