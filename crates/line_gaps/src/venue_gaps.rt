//! The gaps of a venue: those of line A, of line B, and of all lines together.

ghost use Rattle.std.specs.Prelude.{◌≡◌, ℕ, Bool, true, List, [], ◌∷◌, ◌++◌, Option, IfOk, Ok, if◌then◌else◌};
ghost use Rattle.feed_types.specs.FullCounts.{count_after};
ghost use Rattle.event_sinks.specs.SinkEvents.{TimedEvent, timed_event, told_by, told_packet, told_renewal, told_skip};
ghost use Rattle.line_arbiter.specs.declared.outcome.Outcome.TheVariants.{Ahead, Taken};
ghost use Rattle.line_gaps.specs.Ends.{EndsVenue, recovered_on, sums_on};
ghost use Rattle.line_gaps.specs.Gaps.{is_missing};
ghost use Rattle.line_gaps.specs.LineSteps.{ClosesLine, joined_at, over_closed};
ghost use Rattle.line_gaps.specs.VenueSteps.{PassesVenue};
ghost use Rattle.line_gaps.specs.Missing.{CountsNumbers, FitsLost, KeptAll};
ghost use Rattle.line_gaps.specs.OpenGaps.{closes_gaps};
ghost use Rattle.line_gaps.specs.Runs.{IsLeast};
ghost use Rattle.line_gaps.specs.Sums.{AreSumsOf};
ghost use Rattle.line_gaps.specs.VenueFits.{AreNewGaps, EndsJust, FitsBut, FitsGaps, FitsSession, IsHeard, StepsOn, TakesTimed, runs_dropped, lost_by_both_of, missing_total, packet_event};

use crate::ended_gaps::EndedGaps;
use crate::gap_line::GapLine;
use crate::gap_sums::{GapSums, raised};
use crate::heard_packet::TimedPacket;
use crate::line_gaps::LineGaps;
use crate::lost_numbers::LostNumbers;
use event_sinks::ReplayedEvent;
use feed_types::{LineId, PerLine};
use line_arbiter::{LineFault, Outcome, RenewFault, SkipFault};
use std::alloc::{AllocError, Global};

/// Sums over the messages of a venue.
#[derive(Clone, Copy, Debug, Default, PartialEq, Eq)]
pub struct VenueSums {
    /// The messages that were given up.
    pub given_up: u64,
    /// Those of them that were given up before any message of their session came.
    pub before_join: u64,
    /// The messages that came on recovery first.
    pub recovered: u64,
}

impl VenueSums {
    /// Counts messages that a line brought first.
    fn bring(&mut self, line: LineId, new: u16)
        ensures { self.new ≡ record self.old {
          recovered = count_after self.old.recovered (recovered_on line new);
        } }
    {
        match line {
            LineId::A | LineId::B => {}
            LineId::Recovery => self.recovered = raised(self.recovered, u64::from(new)),
        }
    }

    /// Counts messages that were given up, where messages of the session came before or not.
    fn give_up(&mut self, count: u64, has_come: bool)
        ensures { self.new ≡ record self.old {
          given_up = count_after self.old.given_up count;
          before_join = if has_come then self.old.before_join
              else count_after self.old.before_join count;
        } }
    {
        self.given_up = raised(self.given_up, count);
        if !has_come {
            self.before_join = raised(self.before_join, count);
        }
    }
}

/// The gaps of a venue, and which of its numbers are missing.
#[derive(Drop)]
pub struct VenueGaps {
    pub a: LineGaps,
    pub b: LineGaps,
    pub all: LineGaps,
    /// The latest packet of each line in the present session that was answered `Ahead`.
    pub far: PerLine<Option<TimedPacket>>,
    pub lost: LostNumbers,
    /// Whether a message of the present session came.
    pub has_come: bool,
    pub sums: VenueSums,
}

/// Makes the gaps of this many venues, of which nothing came. Fails where memory is refused.
pub fn new_gaps(alloc: Global, count: usize) -> Result<Vec<VenueGaps>, AllocError>
    ensures { IfOk result (λ venues. AreNewGaps count venues.items) }
{
    let mut venues = Vec::new(alloc);
    for place in 0..count {
        venues.push(VenueGaps::new())?;
    }
    Ok(venues)
}

impl VenueGaps {
    /// Of a venue of which nothing came.
    pub fn new() -> VenueGaps
        ensures a { AreSumsOf [] result.a.sums }
        ensures b { AreSumsOf [] result.b.sums }
        ensures all { AreSumsOf [] result.all.sums }
        ensures lost { FitsLost [] result.lost }
        ensures fits { FitsGaps [] result }
    {
        VenueGaps {
            a: LineGaps::new(GapLine::A),
            b: LineGaps::new(GapLine::B),
            all: LineGaps::new(GapLine::All),
            far: PerLine::all(None),
            lost: LostNumbers::new(),
            has_come: false,
            sums: VenueSums::default(),
        }
    }

    /// Returns the sums of a line's gaps, or of those of all lines.
    pub fn sums(&self, line: GapLine) -> GapSums
        ensures { result ≡ sums_on line self.now }
    {
        match line {
            GapLine::A => self.a.sums,
            GapLine::B => self.b.sums,
            GapLine::All => self.all.sums,
        }
    }

    /// Returns the highest number of the present session that a packet told of.
    pub fn known(&self) -> u64
        ensures { result ≡ self.now.lost.highest }
    {
        self.lost.highest
    }

    /// Returns how many messages are missing now: packets tell of them, and they neither came nor
    /// were given up.
    pub fn missing(&self) -> u64
        ensures { (events : List TimedEvent) → FitsLost events self.now.lost
            → self.now.lost.missing.dropped ≡ 0 → result ≡ missing_total events }
    {
        self.lost.missing.count(self.lost.highest)
    }

    /// Returns the number of the first message that is missing.
    pub fn first_missing(&self) -> Option<u64>
        ensures { (events : List TimedEvent) → FitsLost events self.now.lost
            → self.now.lost.missing.dropped ≡ 0 → IsLeast (is_missing events) result }
    {
        self.lost.missing.first()
    }

    /// Returns how many messages were given up.
    pub fn given_up(&self) -> u64
        ensures { result ≡ self.now.sums.given_up }
    {
        self.sums.given_up
    }

    /// Returns how many messages were given up before any of their session came.
    pub fn before_join(&self) -> u64
        ensures { result ≡ self.now.sums.before_join }
    {
        self.sums.before_join
    }

    /// Returns how many messages neither A nor B brought: those that are missing, that were given
    /// up after the first of their session came, and that recovery brought first.
    pub fn lost_by_both(&self) -> u64
        ensures { (events : List TimedEvent) → FitsLost events self.now.lost
            → self.now.lost.missing.dropped ≡ 0
            → result ≡ lost_by_both_of self.now.sums (missing_total events) }
    {
        let given_up = self.sums.given_up.saturating_sub(self.sums.before_join);
        raised(raised(given_up, self.sums.recovered), self.missing())
    }

    /// Returns how many runs of numbers were dropped, since there were more than are kept: where
    /// it is 0, all gaps and figures are exact.
    pub fn dropped(&self) -> u64
        ensures { result ≡ runs_dropped self.now }
    {
        let lost = raised(self.lost.missing.dropped, self.lost.given_up.dropped);
        let lines = raised(self.a.passed.dropped, self.b.passed.dropped);
        raised(raised(lost, lines), self.all.passed.dropped)
    }

    /// Begins all sums anew. What is open stays, as does what came.
    pub fn restart(&mut self)
        ensures a { AreSumsOf [] self.new.a.sums }
        ensures b { AreSumsOf [] self.new.b.sums }
        ensures all { AreSumsOf [] self.new.all.sums }
        ensures lost { self.new.lost ≡ self.old.lost }
        ensures far { self.new.far ≡ self.old.far }
        ensures fits { (events : List TimedEvent) → FitsGaps events self.old
            → FitsGaps events self.new }
    {
        self.a.sums = GapSums::new();
        self.b.sums = GapSums::new();
        self.all.sums = GapSums::new();
        self.sums = VenueSums::default();
    }

    /// Has each line take a packet, which brought a number that was missing where `is_filled`.
    #[inline(always)]
    fn pass_each(&mut self, packet: &TimedPacket, is_filled: bool, ended: &mut EndedGaps)
        requires { ended.old.gaps.items ≡ [] }
        ensures { PassesVenue packet.now is_filled self.old self.new ended.old ended.new }
    {
        self.a.take(packet, &self.lost, is_filled, ended);
        self.b.take(packet, &self.lost, is_filled, ended);
        self.all.take(packet, &self.lost, is_filled, ended);
    }

    /// Has each line take a packet that brought a number that was missing.
    #[cold]
    #[inline(never)]
    fn pass_filled(&mut self, packet: TimedPacket, ended: &mut EndedGaps)
        requires { ended.old.gaps.items ≡ [] }
        ensures { PassesVenue packet true self.old self.new ended.old ended.new }
    {
        self.pass_each(&packet, true, ended);
    }

    /// Has the lines take a packet, which brought a number that was missing where `is_filled`.
    // Few do: theirs is a call of its own, so that the others ask once and not for each line.
    #[inline(always)]
    fn pass(&mut self, packet: &TimedPacket, is_filled: bool, ended: &mut EndedGaps)
        requires { ended.old.gaps.items ≡ [] }
        ensures { PassesVenue packet.now is_filled self.old self.new ended.old ended.new }
    {
        if is_filled {
            self.pass_filled(*packet, ended);
        } else {
            self.pass_each(packet, false, ended);
        }
    }

    /// Takes a packet whose messages came.
    #[inline(always)]
    fn take_messages(&mut self, packet: &TimedPacket, new: u16, ended: &mut EndedGaps)
        requires { ended.old.gaps.items ≡ [] }
        ensures ends { EndsVenue self.old self.new ended.old ended.new }
        ensures missing { (events : List TimedEvent) (venue bytes repeated : ℕ)
            → FitsLost events self.old.lost
            → FitsLost (timed_event packet.now.time (told_packet venue packet.now.line
            packet.now.number packet.now.count bytes (Ok (Taken new repeated))) ∷ events)
            self.new.lost }
        ensures takes { (earlier : List TimedEvent) (venue bytes repeated : ℕ)
            → FitsSession earlier self.old → StepsOn earlier
            (packet_event packet.now venue bytes (Ok (Taken new repeated))) self.old self.new
            ended.old.gaps.items ended.new.gaps.items }
    {
        self.has_come = true;
        self.sums.bring(packet.line, new);
        let is_filled = self.lost.take_messages(packet);
        self.pass(packet, is_filled, ended);
    }

    /// Takes a packet of which nothing came, but which tells of the numbers up to its last.
    #[cold]
    #[inline(never)]
    fn take_numbers(&mut self, packet: TimedPacket, ended: &mut EndedGaps)
        requires { ended.old.gaps.items ≡ [] }
        ensures ends { EndsVenue self.old self.new ended.old ended.new }
        ensures missing { (events : List TimedEvent) (last : TimedEvent)
            → CountsNumbers events last packet → FitsLost events self.old.lost
            → FitsLost (last ∷ events) self.new.lost }
        ensures far { self.new.far ≡ self.old.far }
        ensures takes { (earlier : List TimedEvent) (last : TimedEvent)
            → CountsNumbers earlier last packet → IsHeard earlier last packet
            → FitsBut earlier last self.old → StepsOn earlier last self.old self.new
            ended.old.gaps.items ended.new.gaps.items }
    {
        self.lost.take_numbers(&packet);
        self.pass(&packet, false, ended);
    }

    /// Takes a packet past the window. It counts once the line's next one of these goes on from
    /// it.
    #[cold]
    #[inline(never)]
    fn take_far(&mut self, packet: TimedPacket, ended: &mut EndedGaps)
        requires { ended.old.gaps.items ≡ [] }
        ensures ends { EndsVenue self.old self.new ended.old ended.new }
        ensures takes { (earlier : List TimedEvent) (venue bytes : ℕ) → FitsSession earlier self.old
            → StepsOn earlier (packet_event packet venue bytes (Ok Ahead)) self.old self.new
            ended.old.gaps.items ended.new.gaps.items }
    {
        let earlier = self.far.on(packet.line);
        self.far.set(packet.line, Some(packet));
        match earlier {
            Some(before) => {
                if packet.goes_on(&before) {
                    self.take_numbers(before, ended);
                }
            }
            None => {}
        }
    }

    /// Takes a packet that was answered so.
    #[inline(always)]
    fn take_packet(&mut self, packet: &TimedPacket, outcome: &Outcome, ended: &mut EndedGaps)
        requires { ended.old.gaps.items ≡ [] }
        ensures ends { EndsVenue self.old self.new ended.old ended.new }
        ensures takes { (earlier : List TimedEvent) (venue bytes : ℕ) → FitsSession earlier self.old
            → StepsOn earlier (packet_event packet.now venue bytes (Ok outcome.now)) self.old
            self.new ended.old.gaps.items ended.new.gaps.items }
    {
        match outcome {
            Outcome::Taken { new, .. } => self.take_messages(packet, *new, ended),
            Outcome::Heartbeat => self.take_numbers(*packet, ended),
            Outcome::Ended => self.take_numbers(*packet, ended),
            Outcome::Ahead => self.take_far(*packet, ended),
        }
    }

    /// Takes a packet with its answer.
    #[inline(always)]
    fn take_answered(
        &mut self,
        packet: &TimedPacket,
        answer: &Result<Outcome, LineFault>,
        ended: &mut EndedGaps,
    )
        requires { ended.old.gaps.items ≡ [] }
        ensures ends { EndsVenue self.old self.new ended.old ended.new }
        ensures takes { (earlier : List TimedEvent) (venue bytes : ℕ) → FitsSession earlier self.old
            → StepsOn earlier (packet_event packet.now venue bytes answer.now) self.old self.new
            ended.old.gaps.items ended.new.gaps.items }
    {
        match answer {
            Ok(outcome) => self.take_packet(packet, outcome, ended),
            Err(_) => {}
        }
    }

    /// Returns the number to which a skip goes, where it joins the session: no message of it came
    /// before.
    fn joined_at(&self, number: u64) -> Option<u64>
        ensures { result ≡ joined_at self.now.has_come number }
    {
        if self.has_come {
            return None;
        }
        Some(number)
    }

    /// Takes a skip to a number, which was granted.
    #[cold]
    #[inline(never)]
    fn skip_to(&mut self, number: u64, time: Option<u64>, ended: &mut EndedGaps)
        requires { ended.old.gaps.items ≡ [] }
        ensures ends { EndsVenue self.old self.new ended.old ended.new }
        ensures missing { (events : List TimedEvent) (venue : ℕ) → FitsLost events self.old.lost
            → FitsLost (timed_event time (told_skip venue number (Ok tt)) ∷ events)
            self.new.lost }
        ensures takes { (earlier : List TimedEvent) (venue : ℕ) → FitsSession earlier self.old
            → StepsOn earlier (timed_event time (told_skip venue number (Ok tt))) self.old self.new
            ended.old.gaps.items ended.new.gaps.items }
    {
        let count = self.lost.give_up(number);
        self.sums.give_up(count, self.has_come);
        let joined = self.joined_at(number);
        self.a.skip(joined, time, &self.lost, ended);
        self.b.skip(joined, time, &self.lost, ended);
        self.all.skip(joined, time, &self.lost, ended);
    }

    /// Takes a skip to a number with its answer.
    fn take_skip(
        &mut self,
        number: u64,
        time: Option<u64>,
        answer: &Result<(), SkipFault>,
        ended: &mut EndedGaps,
    )
        requires { ended.old.gaps.items ≡ [] }
        ensures ends { EndsVenue self.old self.new ended.old ended.new }
        ensures takes { (earlier : List TimedEvent) (venue : ℕ) → FitsSession earlier self.old
            → StepsOn earlier (timed_event time (told_skip venue number answer.now)) self.old
            self.new ended.old.gaps.items ended.new.gaps.items }
    {
        match answer {
            Ok(_) => self.skip_to(number, time, ended),
            Err(_) => {}
        }
    }

    /// Ends the gaps that are open.
    #[cold]
    #[inline(never)]
    fn close(&mut self, ended: &mut EndedGaps)
        requires { ended.old.gaps.items ≡ [] }
        ensures ends { EndsVenue self.old self.new ended.old ended.new }
        ensures lost { self.new.lost ≡ self.old.lost }
        ensures far { self.new.far ≡ self.old.far }
        ensures come { self.new.has_come ≡ self.old.has_come }
        ensures a { ClosesLine self.old.lost self.old.a self.new.a }
        ensures b { ClosesLine self.old.lost self.old.b self.new.b }
        ensures all { ClosesLine self.old.lost self.old.all self.new.all }
        ensures ended { ended.new.gaps.items ≡ ended.old.gaps.items
            ++ (over_closed self.old.lost self.old.a ++ (over_closed self.old.lost self.old.b
            ++ over_closed self.old.lost self.old.all)) }
    {
        self.a.close(&self.lost, ended);
        self.b.close(&self.lost, ended);
        self.all.close(&self.lost, ended);
    }

    /// Begins the next session, which ends the gaps that are open.
    #[cold]
    #[inline(never)]
    fn renew(&mut self, ended: &mut EndedGaps)
        requires { ended.old.gaps.items ≡ [] }
        ensures ends { EndsVenue self.old self.new ended.old ended.new }
        ensures missing { FitsLost [] self.new.lost }
        ensures fits { (events : List TimedEvent) → FitsSession events self.old
            → FitsSession [] self.new }
        ensures just { (earlier : List TimedEvent) (last : TimedEvent)
            → closes_gaps last.event ≡ true → FitsSession earlier self.old
            → KeptAll self.new.lost → EndsJust earlier last self.old self.new
            ended.old.gaps.items ended.new.gaps.items }
    {
        self.close(ended);
        self.a.renew();
        self.b.renew();
        self.all.renew();
        self.far = PerLine::all(None);
        self.lost.renew();
        self.has_come = false;
    }

    /// Takes a renewal with its answer.
    fn take_renewal(&mut self, answer: &Result<u64, RenewFault>, ended: &mut EndedGaps)
        requires { ended.old.gaps.items ≡ [] }
        ensures ends { EndsVenue self.old self.new ended.old ended.new }
        ensures takes { (earlier : List TimedEvent) (time : Option ℕ) (venue : ℕ)
            → FitsGaps earlier self.old
            → TakesTimed earlier (timed_event time (told_renewal venue answer.now)) self.old
            self.new ended.new.gaps.items }
    {
        match answer {
            Ok(_) => self.renew(ended),
            Err(_) => {}
        }
    }

    /// Takes an event of the venue, and appends the gaps that it ends.
    #[inline(always)]
    pub fn take(&mut self, time: Option<u64>, event: &ReplayedEvent<'_>, ended: &mut EndedGaps)
        requires { ended.old.gaps.items ≡ [] }
        ensures ends { EndsVenue self.old self.new ended.old ended.new }
        ensures takes { (earlier : List TimedEvent) → FitsGaps earlier self.old
            → TakesTimed earlier (timed_event time (told_by event.now)) self.old self.new
            ended.new.gaps.items }
    {
        match event {
            ReplayedEvent::Packet {
                line,
                number,
                count,
                answer,
                ..
            } => {
                let packet = TimedPacket {
                    line: *line,
                    number: *number,
                    count: *count,
                    time,
                };
                self.take_answered(&packet, answer, ended);
            }
            ReplayedEvent::Skip { number, answer, .. } => self.take_skip(
                *number, time, answer, ended,
            ),
            ReplayedEvent::Renewal { answer, .. } => self.take_renewal(answer, ended),
            ReplayedEvent::Last { .. } => self.close(ended),
            ReplayedEvent::Refusal { .. } => {}
            ReplayedEvent::Item { .. } => {}
            ReplayedEvent::Best { .. } => {}
            ReplayedEvent::Gap { .. } => {}
            ReplayedEvent::Declaration { .. } => {}
        }
    }
}
