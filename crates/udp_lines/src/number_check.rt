//! Which datagrams of a line are plausible, by their numbers and by the ends that they are.
ghost use Rattle.std.specs.Prelude.{◌≡◌, ◌≤◌, IfSome, IsTrue, Some, is_some};
ghost use Rattle.mold_packet.specs.declared.request.Request.{Request};
ghost use Rattle.udp_lines.specs.EndsOfSessions.{SpellsEndOf};
ghost use Rattle.udp_lines.specs.Plausible.{Covers, HasHeader, IsAnEnd, IsFar, IsJudged, agrees, announced_by, end_checked, end_verdict, ends_after, far_row_after, far_row_of, far_verdict, header_checked, header_verdict, held_for_far, highest_of, is_confirmed, is_past, number_checked, number_verdict};

use crate::line_progress::LineProgress;
use crate::venue_marks::{NOTHING_SEEN, OthersSeen, VenueMarks};
use feed_types::{LineId, SessionName};
use mold_packet::{END_COUNT, HEADER_LEN, Request, read_request, reads_back};
use run_settings::EndRule;

/// How many times in a row a line brings what isn't plausible until it is taken for true.
const TIMES: u8 = 3;

/// What is done with a datagram.
#[derive(Clone, Copy, Debug, PartialEq, Eq)]
pub(crate) enum Verdict {
    /// It is handed on.
    Plausible,
    /// Its number is too far ahead: it is withheld.
    TooFar,
    /// Its number is too far ahead, and no line of the venue has brought any: it is held.
    First,
    /// The same, and it agrees with the one that is held: that is handed on, and this one is next.
    Second,
    /// It is an end of session, and none is handed on.
    Barred,
    /// It is an end of the line's session that waits until another line has brought it: it is held.
    Unconfirmed,
}

/// What the datagram that is held waits for.
#[derive(Clone, Copy, Debug, PartialEq, Eq)]
pub(crate) enum HeldFor {
    /// Nothing: none is held, or what is held isn't handed on any more.
    Nothing,
    /// That the venue's lines come as far as its number.
    Number(u64),
    /// That another line brings the end of session that has this number.
    End(u64),
    /// The next call: it is handed on then.
    Call(u64),
}

/// Numbers that came in a row.
#[derive(Clone, Copy, Debug, PartialEq, Eq)]
pub(crate) struct Row {
    /// The last one.
    pub(crate) number: u64,
    /// How many there are, 255 at most.
    pub(crate) times: u8,
}

/// No numbers.
pub(crate) const NO_ROW: Row = Row {
    number: 0,
    times: 0,
};

/// The rule by which datagrams of a line are withheld, and what it knows of those before.
#[derive(Drop)]
pub(crate) struct NumberCheck {
    pub(crate) session: SessionName,
    /// The venue's sessions before that one.
    pub(crate) earlier: Vec<SessionName>,
    pub(crate) end_rule: EndRule,
    /// The most that a number may be ahead of the highest one; None where the rule isn't applied.
    pub(crate) most_ahead: Option<u64>,
    pub(crate) line: LineId,
    pub(crate) marks: VenueMarks,
    pub(crate) progress: LineProgress,
    /// The highest number that the line has handed on.
    pub(crate) highest: u64,
    /// Numbers too far ahead that came in a row, and agree.
    pub(crate) far: Row,
    /// The same end that came in a row.
    pub(crate) ends: Row,
    /// What the datagram that is held waits for.
    pub(crate) held_for: HeldFor,
}

/// The header of a packet, which is laid out as a request is; None where the bytes have none.
fn header_of(bytes: &[u8]) -> Option<Request>
    ensures has { IfSome result (HasHeader bytes.now) }
    ensures only { (header : Request) → HasHeader bytes.now header → result ≡ Some header }
{
    reads_back();
    let front = bytes.get(..HEADER_LEN)?;
    match read_request(front) {
        Ok(header) => Some(header),
        Err(_) => None,
    }
}

/// The number of the last message that a packet of this header announces: its last one, or the one
/// before its number; 2^64 - 1 at most.
fn announced_by(header: &Request) -> u64
    requires { 1 ≤ header.now.number }
    ensures { result ≡ announced_by header.now }
{
    let messages = if header.count < END_COUNT {
        u64::from(header.count)
    } else {
        0
    };
    (header.number - 1).saturating_add(messages)
}

/// Whether the number is more than `most` past the highest one.
fn is_past(most: u64, highest: u64, number: u64) -> bool
    ensures { result ≡ is_past most highest number }
{
    highest.saturating_add(most) < number
}

/// The row of numbers too far ahead after one more: it goes on where that is not below the last one
/// and at most `most` past it.
fn far_row_after(most: u64, row: Row, number: u64) -> Row
    ensures { result ≡ far_row_after most row number }
{
    let times = if row.times > 0 && row.number <= number && !is_past(most, row.number, number) {
        row.times.saturating_add(1)
    } else {
        1
    };
    Row { number, times }
}

/// The row of ends after one more, which goes on where it is the same.
fn ends_after(row: Row, number: u64) -> Row
    ensures { result ≡ ends_after row number }
{
    let times = if row.number == number {
        row.times.saturating_add(1)
    } else {
        1
    };
    Row { number, times }
}

/// Whether a number agrees with that of the datagram that is held: it is not below it, and at most
/// `most` past it.
fn agrees(most: u64, held_for: HeldFor, number: u64) -> bool
    ensures { result ≡ agrees most held_for number }
{
    match held_for {
        HeldFor::Number(held) => held <= number && !is_past(most, held, number),
        _ => false,
    }
}

impl NumberCheck {
    /// The highest number that a line of the venue has brought; 0 where none has brought any.
    fn highest_of(&self, seen: OthersSeen) -> u64
        ensures { result ≡ highest_of self.now seen }
    {
        self.highest.max(seen.highest)
    }

    /// Has what is held wait for this from now on. What waited before is counted as withheld, if
    /// anything did.
    fn hold_for(&mut self, held_for: HeldFor)
        ensures { self.new ≡ record (self.old) { held_for = held_for } }
    {
        if self.held_for != HeldFor::Nothing {
            self.progress.count_withheld();
        }
        self.held_for = held_for;
    }

    /// What is done with a number that is too far past the highest one.
    fn judge_far(&mut self, most: u64, seen: OthersSeen, number: u64) -> Verdict
        ensures verdict { result ≡ far_verdict most self.old seen number }
        ensures unbarred { result ≡ Verdict.Barred → ⊥ }
        ensures no_end { result ≡ Verdict.Unconfirmed → ⊥ }
        ensures rest { self.new ≡ record (self.old) {
          far = far_row_of most self.old seen number;
          held_for = held_for_far most self.old seen number;
        } }
    {
        if self.highest_of(seen) > 0 {
            self.far = far_row_after(most, self.far, number);
            return if self.far.times < TIMES {
                Verdict::TooFar
            } else {
                Verdict::Plausible
            };
        }
        if agrees(most, self.held_for, number) {
            self.held_for = HeldFor::Call(number);
            return Verdict::Second;
        }
        self.hold_for(HeldFor::Number(number));
        Verdict::First
    }

    /// What is done with a number.
    fn judge_number(&mut self, most: u64, seen: OthersSeen, number: u64) -> Verdict
        ensures verdict { result ≡ number_verdict most self.old seen number }
        ensures unbarred { result ≡ Verdict.Barred → ⊥ }
        ensures no_end { result ≡ Verdict.Unconfirmed → ⊥ }
        ensures past { (result ≡ Verdict.Plausible → ⊥)
            → IsTrue (is_past most self.old.highest number) }
        ensures rest { self.new ≡ number_checked most self.old seen number }
    {
        if is_past(most, self.highest_of(seen), number) {
            return self.judge_far(most, seen, number);
        }
        self.far = NO_ROW;
        if matches!(self.held_for, HeldFor::Number(_)) {
            self.hold_for(HeldFor::Nothing);
        }
        Verdict::Plausible
    }

    /// What is done with an end of the session that has this number. It is marked for the venue's
    /// other lines.
    fn judge_end(&mut self, seen: OthersSeen, number: u64) -> Verdict
        ensures verdict { result ≡ end_verdict self.old seen number }
        ensures rest { self.new ≡ end_checked self.old seen number }
    {
        self.marks.mark_end(self.line, number);
        self.ends = ends_after(self.ends, number);
        if seen.end == number || self.ends.times >= TIMES {
            return Verdict::Plausible;
        }
        self.hold_for(HeldFor::End(number));
        Verdict::Unconfirmed
    }

    /// What the line sees of the venue's others at this moment. Where no rule is applied, it
    /// doesn't look.
    pub(crate) fn seen(&self) -> OthersSeen {
        if self.most_ahead.is_none() {
            return NOTHING_SEEN;
        }
        self.marks.seen_by(self.line)
    }

    /// Whether the datagram that is held is handed on by now.
    pub(crate) fn is_confirmed(&self, seen: OthersSeen) -> bool
        ensures { result ≡ is_confirmed self.now seen }
    {
        match (self.most_ahead, self.held_for) {
            (Some(most), HeldFor::Number(number)) => !is_past(most, self.highest_of(seen), number),
            (Some(_), HeldFor::End(number)) => seen.end == number,
            (Some(_), HeldFor::Call(_)) => true,
            _ => false,
        }
    }

    /// Marks that the datagram that is held is handed on.
    pub(crate) fn bring_held(&mut self)
        ensures kept { self.old.highest ≤ self.new.highest }
        ensures rest { self.new ≡ record (self.old) {
          highest = self.new.highest;
          held_for = HeldFor.Nothing;
        } }
    {
        match self.held_for {
            HeldFor::Number(number) | HeldFor::Call(number) => self.bring(number),
            HeldFor::End(_) | HeldFor::Nothing => {}
        }
        self.held_for = HeldFor::Nothing;
    }

    /// Marks that the line hands this number on.
    fn bring(&mut self, number: u64)
        ensures covers { number ≤ self.new.highest }
        ensures kept { self.old.highest ≤ self.new.highest }
        ensures rest { self.new ≡ record (self.old) { highest = self.new.highest } }
    {
        if number > self.highest {
            self.highest = number;
            if number > self.marks.highest() {
                self.marks.raise(number);
            }
        }
    }

    /// What is done with a datagram of the session that has this header, and is an end of session
    /// where `is_end`.
    fn judge_header(
        &mut self,
        most: u64,
        seen: OthersSeen,
        header: &Request,
        is_end: bool,
    ) -> Verdict
        requires { 1 ≤ header.now.number }
        ensures verdict { result ≡ header_verdict most self.old seen header.now is_end }
        ensures unbarred { result ≡ Verdict.Barred → ⊥ }
        ensures end { result ≡ Verdict.Unconfirmed → IsTrue is_end }
        ensures past { (result ≡ Verdict.Plausible → ⊥) → (result ≡ Verdict.Unconfirmed → ⊥)
            → IsTrue (is_past most self.old.highest (announced_by header.now)) }
        ensures kept { self.old.highest ≤ self.new.highest }
        ensures unmoved { (result ≡ Verdict.Plausible → ⊥) → self.new.highest ≡ self.old.highest }
        ensures covers { result ≡ Verdict.Plausible → announced_by header.now ≤ self.new.highest }
        ensures rest { self.new ≡ record (header_checked most self.old seen header.now is_end) {
          highest = self.new.highest;
        } }
    {
        let number = announced_by(header);
        let verdict = self.judge_number(most, seen, number);
        if verdict != Verdict::Plausible {
            return verdict;
        }
        if is_end && self.judge_end(seen, header.number) != Verdict::Plausible {
            return Verdict::Unconfirmed;
        }
        self.bring(number);
        Verdict::Plausible
    }

    /// What is done with a datagram of these bytes, which is an end of the session `ended`, if it
    /// is an end of session, where the venue's other lines have brought what is `seen`.
    pub(crate) fn judge(
        &mut self,
        bytes: &[u8],
        ended: Option<SessionName>,
        seen: OthersSeen,
    ) -> Verdict
        requires { IfSome ended (λ session. SpellsEndOf session bytes.now) }
        ensures judged { IsJudged self.old bytes.now ended seen result self.new }
        ensures far { result ≡ Verdict.TooFar → (self.new.highest ≡ self.old.highest)
            × IsFar self.old.session self.old.most_ahead self.old.highest bytes.now }
        ensures first { result ≡ Verdict.First → (self.new.highest ≡ self.old.highest)
            × IsFar self.old.session self.old.most_ahead self.old.highest bytes.now }
        ensures second { result ≡ Verdict.Second → (self.new.highest ≡ self.old.highest)
            × IsFar self.old.session self.old.most_ahead self.old.highest bytes.now }
        ensures barred { result ≡ Verdict.Barred → (self.new.highest ≡ self.old.highest)
            × (self.old.end_rule ≡ EndRule.NoSession) × IsAnEnd bytes.now }
        ensures held { result ≡ Verdict.Unconfirmed → (self.new.highest ≡ self.old.highest)
            × SpellsEndOf self.old.session bytes.now × IsTrue (is_some self.old.most_ahead) }
        ensures covers { result ≡ Verdict.Plausible → IsTrue (is_some self.old.most_ahead)
            → Covers self.old.session bytes.now self.new.highest }
        ensures kept { self.old.highest ≤ self.new.highest }
        ensures rest { self.new ≡ record (self.old) {
          highest = self.new.highest;
          far = self.new.far;
          ends = self.new.ends;
          held_for = self.new.held_for;
        } }
    {
        if ended.is_some() && self.end_rule == EndRule::NoSession {
            return Verdict::Barred;
        }
        let Some(most) = self.most_ahead else {
            return Verdict::Plausible;
        };
        let Some(header) = header_of(bytes) else {
            return Verdict::Plausible;
        };
        if header.session != self.session {
            if !self.earlier.contains(&header.session) {
                self.progress.meet(&header.session);
            }
            return Verdict::Plausible;
        }
        self.judge_header(most, seen, &header, ended == Some(self.session))
    }
}
