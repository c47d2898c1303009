//! The gaps of one line, or of all lines together.
ghost use Rattle.std.specs.Prelude.{◌≡◌, ◌≤◌, ◌+◌, ◌-◌, ℕ, Bool, ◌&&◌, false, not, nat_lt, max, List, length, map, [], ◌∷◌, ◌++◌, None, Some, if◌then◌else◌};
ghost use Rattle.std.specs.List.{filter, fold};
ghost use Rattle.feed_types.specs.FullCounts.{count_after};
ghost use Rattle.line_gaps.specs.Runs.{AreAscending, HaveJust, is_in_run, len_of, meets_runs, run_back, sum_in};
ghost use Rattle.line_gaps.specs.declared.open_gap.GapEnd.TheVariants.{Open, Skip};
ghost use Rattle.line_gaps.specs.declared.open_gap.EndedGap.{EndedGap};
ghost use Rattle.line_gaps.specs.Sums.{AreSumsOf};
ghost use Rattle.line_gaps.specs.Ends.{EndsGaps, KeepsLine, end_on, gap_over, joined_gap, opened, over_at_once, over_new, over_now};
ghost use Rattle.line_gaps.specs.Gaps.{is_packet_of, of_line};
ghost use Rattle.line_gaps.specs.OpenGaps.{add_gap, gap_passed};
ghost use Rattle.line_gaps.specs.LineSteps.{PassesLine, SkipsLine, TakesLine, highest_joined, kept_open, over_if, over_skipped, gaps_over_with, pass_of, still_open};

use crate::ended_gaps::EndedGaps;
use crate::gap_line::GapLine;
use crate::gap_sums::{GapSums, raised};
use crate::heard_packet::TimedPacket;
use crate::lost_numbers::LostNumbers;
use crate::number_run::NumberRun;
use crate::number_runs::NumberRuns;
use crate::open_gap::{EndedGap, GapEnd, OpenGap};
use arrayvec::ArrayVec;
use feed_types::LineId;

/// The most gaps of a line that are open at once. Past that the newest two become one.
const MOST_OPEN: usize = 16;

/// What ends gaps, and when.
#[derive(Clone, Copy, Debug, PartialEq, Eq)]
pub struct GapPass {
    pub by: GapEnd,
    pub time: Option<u64>,
}

/// The gaps of one line, or of all lines together.
#[derive(Drop)]
pub struct LineGaps {
    pub line: GapLine,
    /// Whether a packet of the present session counted.
    pub begun: bool,
    /// The highest number of the present session that a packet told of.
    pub highest: u64,
    pub open: ArrayVec<OpenGap, MOST_OPEN>,
    /// The numbers that the line passed over and didn't bring since.
    pub passed: NumberRuns,
    pub sums: GapSums,
}

/// Returns what ends a gap that a packet of the line ends.
fn end_by_line(line: LineId) -> GapEnd
    ensures { result ≡ end_on line }
{
    match line {
        LineId::A => GapEnd::A,
        LineId::B => GapEnd::B,
        LineId::Recovery => GapEnd::Recovery,
    }
}

/// Returns whether a packet is of the line, or the line is all lines.
#[inline(always)]
fn is_own(line: GapLine, packet: &TimedPacket) -> bool
    ensures { result ≡ is_packet_of line packet.now }
{
    match line {
        GapLine::A => matches!(packet.line, LineId::A),
        GapLine::B => matches!(packet.line, LineId::B),
        GapLine::All => true,
    }
}

/// Returns the gap that two make.
fn joined(one: OpenGap, next: OpenGap) -> OpenGap
    ensures { result ≡ joined_gap one next }
{
    OpenGap {
        run: NumberRun {
            first: one.run.first,
            last: next.run.last,
        },
        messages: raised(one.messages, next.messages),
        began: one.began,
    }
}

/// Copies those of the gaps of which a number is missing.
fn open_ones(gaps: &[OpenGap], lost: &LostNumbers) -> ArrayVec<OpenGap, MOST_OPEN>
    requires { length gaps.now ≤ 16 }
    ensures { result.items ≡ filter (λ g. meets_runs lost.now.missing.runs.items g.run) gaps.now }
{
    let mut kept: ArrayVec<OpenGap, MOST_OPEN> = ArrayVec::new();
    for gap in gaps {
        if lost.missing.meets(gap.run) {
            kept.push(*gap);
        }
    }
    kept
}

/// Copies those of the gaps of which no number is missing.
fn over_ones(gaps: &[OpenGap], lost: &LostNumbers) -> ArrayVec<OpenGap, MOST_OPEN>
    requires { length gaps.now ≤ 16 }
    ensures are { result.items
        ≡ filter (λ g. not (meets_runs lost.now.missing.runs.items g.run)) gaps.now }
    ensures few { length result.items ≤ 16 }
{
    let mut over: ArrayVec<OpenGap, MOST_OPEN> = ArrayVec::new();
    for gap in gaps {
        if !lost.missing.meets(gap.run) {
            over.push(*gap);
        }
    }
    over
}

impl LineGaps {
    /// Of a line on which nothing came.
    pub fn new(line: GapLine) -> LineGaps
        ensures line { result.line ≡ line }
        ensures begun { result.begun ≡ false }
        ensures highest { result.highest ≡ 0 }
        ensures open { result.open.items ≡ [] }
        ensures sums { AreSumsOf [] result.sums }
    {
        LineGaps {
            line,
            begun: false,
            highest: 0,
            open: ArrayVec::new(),
            passed: NumberRuns::new(),
            sums: GapSums::new(),
        }
    }

    /// Adds a gap that is open, to the newest one where 16 are.
    fn add_open(&mut self, gap: OpenGap)
        ensures merged { self.new.sums.merged ≡ count_after self.old.sums.merged
            (if nat_lt (length self.old.open.items) 16 then 0 else 1) }
        ensures open { self.new.open.items ≡ add_gap self.old.open.items gap }
        ensures sums { (rows : List EndedGap) → AreSumsOf rows self.old.sums
            → AreSumsOf rows self.new.sums }
        ensures kept { KeepsLine self.old self.new }
    {
        if !self.open.is_full() {
            self.open.push(gap);
            return;
        }
        self.sums.merged = raised(self.sums.merged, 1);
        match self.open.pop() {
            Some(newest) => self.open.push(joined(newest, gap)),
            None => {}
        }
    }

    /// Ends a gap.
    fn end(&mut self, gap: OpenGap, lost: &LostNumbers, pass: GapPass, ended: &mut EndedGaps)
        requires { length ended.old.gaps.items + 1 ≤ 51 }
        ensures ended { ended.new.gaps.items ≡ ended.old.gaps.items
            ++ gap_over self.old.line lost.now pass gap ∷ [] }
        ensures sums { (rows : List EndedGap) → AreSumsOf rows self.old.sums
            → AreSumsOf (rows ++ gap_over self.old.line lost.now pass gap ∷ []) self.new.sums }
        ensures merged { self.new.sums.merged ≡ self.old.sums.merged }
        ensures tail { self.new.sums.tail ≡ self.old.sums.tail }
        ensures open { self.new.open ≡ self.old.open }
        ensures kept { KeepsLine self.old self.new }
    {
        let over = EndedGap {
            line: self.line,
            gap,
            given_up: lost.given_up.count_in(gap.run),
            ended: pass.time,
            by: pass.by,
        };
        self.sums.add(&over);
        ended.push(over);
    }

    /// Ends gaps.
    fn end_each(
        &mut self,
        gaps: &[OpenGap],
        lost: &LostNumbers,
        pass: GapPass,
        ended: &mut EndedGaps,
    )
        requires few { length gaps.now ≤ 16 }
        requires room { length ended.old.gaps.items + 16 ≤ 51 }
        ensures ended { ended.new.gaps.items ≡ ended.old.gaps.items
            ++ map (gap_over self.old.line lost.now pass) gaps.now }
        ensures sums { (rows : List EndedGap) → AreSumsOf rows self.old.sums
            → AreSumsOf (rows ++ map (gap_over self.old.line lost.now pass) gaps.now)
            self.new.sums }
        ensures merged { self.new.sums.merged ≡ self.old.sums.merged }
        ensures tail { self.new.sums.tail ≡ self.old.sums.tail }
        ensures open { self.new.open ≡ self.old.open }
        ensures kept { KeepsLine self.old self.new }
    {
        for gap in gaps {
            self.end(*gap, lost, pass, ended);
        }
    }

    /// Ends the gaps of whose numbers none is missing.
    #[cold]
    #[inline(never)]
    fn end_over(&mut self, lost: &LostNumbers, pass: GapPass, ended: &mut EndedGaps)
        requires { length ended.old.gaps.items + 16 ≤ 51 }
        ensures ends { EndsGaps 16 self.old self.new ended.old ended.new }
        ensures ended { ended.new.gaps.items ≡ ended.old.gaps.items
            ++ map (gap_over self.old.line lost.now pass)
            (filter (λ g. not (meets_runs lost.now.missing.runs.items g.run)) self.old.open.items) }
        ensures open { self.new.open.items
            ≡ filter (λ g. meets_runs lost.now.missing.runs.items g.run) self.old.open.items }
        ensures sums { (rows : List EndedGap) → AreSumsOf rows self.old.sums
            → AreSumsOf (rows ++ map (gap_over self.old.line lost.now pass)
            (filter (λ g. not (meets_runs lost.now.missing.runs.items g.run)) self.old.open.items))
            self.new.sums }
        ensures merged { self.new.sums.merged ≡ self.old.sums.merged }
        ensures kept { KeepsLine self.old self.new }
    {
        let over = over_ones(self.open.as_slice(), lost);
        self.open = open_ones(self.open.as_slice(), lost);
        self.end_each(over.as_slice(), lost, pass, ended);
    }

    /// Begins a gap of the numbers that a packet passes over, which is over where none is missing.
    #[cold]
    #[inline(never)]
    fn begin_gap(
        &mut self,
        run: NumberRun,
        time: Option<u64>,
        lost: &LostNumbers,
        ended: &mut EndedGaps,
    )
        requires { length ended.old.gaps.items + 1 ≤ 51 }
        ensures ended { ended.new.gaps.items
            ≡ ended.old.gaps.items ++ over_at_once self.old.line lost.now run time }
        ensures open { self.new.open.items
            ≡ fold add_gap self.old.open.items (opened lost.now run time) }
        ensures sums { (rows : List EndedGap) → AreSumsOf rows self.old.sums
            → AreSumsOf (rows ++ over_at_once self.old.line lost.now run time) self.new.sums }
        ensures line { self.new.line ≡ self.old.line }
        ensures begun { self.new.begun ≡ self.old.begun }
        ensures highest { self.new.highest ≡ self.old.highest }
    {
        self.passed.add(run);
        let gap = OpenGap {
            run,
            messages: run.len(),
            began: time,
        };
        if lost.missing.meets(run) {
            self.add_open(gap);
            return;
        }
        let by = if lost.given_up.meets(run) {
            GapEnd::Skip
        } else {
            GapEnd::Before
        };
        self.end(gap, lost, GapPass { by, time }, ended);
    }

    /// Counts messages that are no higher than the highest: those that the line passed over came
    /// late, the others again.
    #[inline(always)]
    fn count_back(&mut self, run: NumberRun)
        ensures sums { (rows : List EndedGap) → AreSumsOf rows self.old.sums
            → AreSumsOf rows self.new.sums }
        ensures line { self.new.line ≡ self.old.line }
        ensures begun { self.new.begun ≡ self.old.begun }
        ensures highest { self.new.highest ≡ self.old.highest }
        ensures open { self.new.open ≡ self.old.open }
        ensures merged { self.new.sums.merged ≡ self.old.sums.merged }
        ensures late { self.new.sums.late ≡ count_after self.old.sums.late
            (sum_in self.old.passed.runs.items (run_back run self.old.highest)) }
        ensures again { self.new.sums.again ≡ count_after self.old.sums.again
            (len_of (run_back run self.old.highest)
            - sum_in self.old.passed.runs.items (run_back run self.old.highest)) }
        ensures passed { (has : ℕ → Bool) → HaveJust self.old.passed has
            → AreAscending self.old.passed.runs.items
            → HaveJust self.new.passed (λ n. has n
            && not (is_in_run n (run_back run self.old.highest))) }
    {
        let back = NumberRun {
            first: run.first,
            last: run.last.min(self.highest),
        };
        let late = self.passed.take_out(back);
        self.sums.late = raised(self.sums.late, late);
        self.sums.again = raised(self.sums.again, back.len().saturating_sub(late));
    }

    /// Begins a gap where a packet of the line passes over numbers, and counts what it brings late
    /// or again.
    #[inline(always)]
    fn compare(&mut self, packet: &TimedPacket, lost: &LostNumbers, ended: &mut EndedGaps)
        requires { length ended.old.gaps.items + 1 ≤ 51 }
        ensures ends { EndsGaps 1 self.old self.new ended.old ended.new }
        ensures begun { self.new.begun ≡ self.old.begun }
        ensures highest { self.new.highest ≡ self.old.highest }
        ensures open { self.new.open.items ≡ fold add_gap self.old.open.items
            (still_open lost.now (gap_passed self.old.highest (Some packet.now))) }
        ensures ended { ended.new.gaps.items ≡ ended.old.gaps.items
            ++ over_new self.old.line lost.now (gap_passed self.old.highest (Some packet.now)) }
    {
        if packet.number <= self.highest {
            self.count_back(packet.run());
            return;
        }
        if packet.number - self.highest > 1 {
            let run = NumberRun {
                first: self.highest + 1,
                last: packet.number - 1,
            };
            self.begin_gap(run, packet.time, lost, ended);
        }
    }

    /// Takes a packet of the line.
    #[inline(always)]
    fn pass(&mut self, packet: &TimedPacket, lost: &LostNumbers, ended: &mut EndedGaps)
        requires { length ended.old.gaps.items + 1 ≤ 51 }
        ensures ends { EndsGaps 1 self.old self.new ended.old ended.new }
        ensures passes { PassesLine (Some packet.now) lost.now self.old self.new }
        ensures ended { ended.new.gaps.items ≡ ended.old.gaps.items
            ++ over_new self.old.line lost.now (gap_passed self.old.highest (Some packet.now)) }
    {
        self.compare(packet, lost, ended);
        self.highest = self.highest.max(packet.last());
        self.begun = true;
    }

    /// Takes a packet, if it is of the line.
    #[inline(always)]
    fn pass_own(&mut self, packet: &TimedPacket, lost: &LostNumbers, ended: &mut EndedGaps)
        requires { length ended.old.gaps.items + 1 ≤ 51 }
        ensures ends { EndsGaps 1 self.old self.new ended.old ended.new }
        ensures passes { PassesLine (of_line self.old.line (Some packet.now)) lost.now self.old
            self.new }
        ensures ended { ended.new.gaps.items ≡ ended.old.gaps.items
            ++ over_new self.old.line lost.now
            (gap_passed self.old.highest (of_line self.old.line (Some packet.now))) }
    {
        if is_own(self.line, packet) {
            self.pass(packet, lost, ended);
        }
    }

    /// Ends the gaps of whose numbers none is missing any more, where a packet brought one that
    /// was.
    #[inline(always)]
    fn end_filled(
        &mut self,
        packet: &TimedPacket,
        lost: &LostNumbers,
        is_filled: bool,
        ended: &mut EndedGaps,
    )
        requires { length ended.old.gaps.items + 16 ≤ 51 }
        ensures ends { EndsGaps 16 self.old self.new ended.old ended.new }
        ensures open { self.new.open.items
            ≡ kept_open is_filled lost.now self.old.open.items }
        ensures ended { ended.new.gaps.items ≡ ended.old.gaps.items
            ++ over_if is_filled self.old.line lost.now (pass_of packet.now) self.old.open.items }
        ensures kept { KeepsLine self.old self.new }
    {
        if is_filled {
            let by = end_by_line(packet.line);
            let time = packet.time;
            self.end_over(lost, GapPass { by, time }, ended);
        }
    }

    /// Takes a packet of a line of the venue, which brought a number that was missing where
    /// `is_filled`.
    #[inline(always)]
    pub(crate) fn take(
        &mut self,
        packet: &TimedPacket,
        lost: &LostNumbers,
        is_filled: bool,
        ended: &mut EndedGaps,
    )
        requires { length ended.old.gaps.items + 17 ≤ 51 }
        ensures ends { EndsGaps 17 self.old self.new ended.old ended.new }
        ensures takes { TakesLine packet.now is_filled lost.now self.old self.new }
        ensures ended { ended.new.gaps.items ≡ ended.old.gaps.items
            ++ gaps_over_with packet.now is_filled lost.now self.old }
    {
        self.end_filled(packet, lost, is_filled, ended);
        self.pass_own(packet, lost, ended);
    }

    /// Takes a skip. Where it joined the session at a number, and no packet came yet, the line
    /// begins there.
    pub(crate) fn skip(
        &mut self,
        joined: Option<u64>,
        time: Option<u64>,
        lost: &LostNumbers,
        ended: &mut EndedGaps,
    )
        requires { length ended.old.gaps.items + 17 ≤ 51 }
        ensures ends { EndsGaps 17 self.old self.new ended.old ended.new }
        ensures skips { SkipsLine joined time lost.now self.old self.new }
        ensures ended { ended.new.gaps.items ≡ ended.old.gaps.items
            ++ over_skipped time lost.now self.old }
    {
        let by = GapEnd::Skip;
        self.end_over(lost, GapPass { by, time }, ended);
        self.begin_at(joined);
    }

    /// Has the line begin where a skip joined the session, if it did and no packet came yet.
    fn begin_at(&mut self, joined: Option<u64>)
        ensures line { self.new.line ≡ self.old.line }
        ensures begun { self.new.begun ≡ self.old.begun }
        ensures highest { self.new.highest
            ≡ highest_joined self.old.begun self.old.highest joined }
        ensures open { self.new.open ≡ self.old.open }
        ensures sums { self.new.sums ≡ self.old.sums }
    {
        match joined {
            Some(number) if !self.begun => {
                self.highest = self.highest.max(number.saturating_sub(1));
            }
            _ => {}
        }
    }

    /// Counts what the line didn't reach of the numbers up to this one, which packets of the venue
    /// told of.
    fn count_tail(&mut self, known: u64)
        ensures tail { self.new ≡ record self.old {
          sums = record self.old.sums {
            tail = count_after self.old.sums.tail (known - self.old.highest);
          };
        } }
        ensures sums { (rows : List EndedGap) → AreSumsOf rows self.old.sums
            → AreSumsOf rows self.new.sums }
        ensures open { self.new.open ≡ self.old.open }
        ensures kept { KeepsLine self.old self.new }
    {
        let tail = known.saturating_sub(self.highest);
        self.sums.tail = raised(self.sums.tail, tail);
    }

    /// Ends all gaps with the session or the capture.
    pub(crate) fn close(&mut self, lost: &LostNumbers, ended: &mut EndedGaps)
        requires { length ended.old.gaps.items + 17 ≤ 51 }
        ensures ends { EndsGaps 17 self.old self.new ended.old ended.new }
        ensures ended { ended.new.gaps.items ≡ ended.old.gaps.items
            ++ map (gap_over self.old.line lost.now (record { by = Open; time = None }))
            self.old.open.items }
        ensures open { self.new.open.items ≡ [] }
        ensures sums { (rows : List EndedGap) → AreSumsOf rows self.old.sums
            → AreSumsOf (rows ++ map (gap_over self.old.line lost.now
            (record { by = Open; time = None })) self.old.open.items) self.new.sums }
        ensures tail { self.new.sums.tail
            ≡ count_after self.old.sums.tail (lost.now.highest - self.old.highest) }
        ensures kept { KeepsLine self.old self.new }
    {
        let pass = GapPass {
            by: GapEnd::Open,
            time: None,
        };
        let open = self.open.take();
        self.end_each(open.as_slice(), lost, pass, ended);
        self.count_tail(lost.highest);
    }

    /// Begins anew with a next session.
    pub(crate) fn renew(&mut self)
        ensures sums { self.new.sums ≡ self.old.sums }
        ensures line { self.new.line ≡ self.old.line }
        ensures begun { self.new.begun ≡ false }
        ensures highest { self.new.highest ≡ 0 }
        ensures open { self.new.open ≡ self.old.open }
        ensures passed { HaveJust self.new.passed (λ n. false) }
    {
        self.begun = false;
        self.highest = 0;
        self.passed.clear();
    }
}
