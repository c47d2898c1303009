//! The lines of a run as the thread beside it sees them: what is news of them, and what was
//! counted.
ghost use Rattle.std.specs.Prelude.{◌≡◌, ◌∷◌, [], Bool, IfSome, false, flat_map, is_some, map, true};
ghost use Rattle.text_out.specs.Members.{writing_of};
ghost use Rattle.text_out.specs.StandardError.{SaysEach};
ghost use Rattle.run_watches.specs.News.{SaysNotes, SaysTotals, line_end_texts, stranger_note, told_if, total_if, total_texts, unheard_note};
ghost use Rattle.run_watches.specs.RunLines.{watched, watched_lines};
ghost use Rattle.run_watches.specs.RunNews.{IsNewsOfLine, IsNewsOfLines, IsTold, SaysNews};

use crate::line_news::{
    LineChange, LineCounted, LineNews, LineTotal, write_line_end, write_news, write_total,
};
use crate::line_silence::{LineSilence, Silence};
use crate::moment::Moment;
use feed_types::{LineId, SessionName, VenueId};
use run_metrics::{LineEndReason, LineState, UNKNOWN_STATE, VenueFigures};
use run_settings::VenueNames;
use socket_tables::{DropTable, SocketTables};
use std::net::SocketAddr;
use text_out::TextOut;
use udp_lines::LineProgress;
use venue_lines::VenueStatus;

/// A line, and what was said of it.
#[derive(Drop)]
pub struct LineWatch {
    venue: VenueId,
    line: LineId,
    progress: LineProgress,
    /// The address of its socket, if that is known.
    address: Option<SocketAddr>,
    has_said_unsent: bool,
    has_said_passed: bool,
    has_said_foreign: bool,
    has_said_withheld: bool,
    has_said_held_back: bool,
    has_said_stranger: bool,
    has_said_end: bool,
    silence: LineSilence,
}

impl LineWatch {
    /// A line of which nothing was said yet. Once it has brought nothing for `silent_after`
    /// milliseconds that is said, of lines A and B.
    pub fn new(
        venue: VenueId,
        line: LineId,
        progress: LineProgress,
        address: Option<SocketAddr>,
        silent_after: Option<u32>,
    ) -> LineWatch
        ensures { watched result ≡ (venue, line) }
    {
        LineWatch {
            venue,
            line,
            progress,
            address,
            has_said_unsent: false,
            has_said_passed: false,
            has_said_foreign: false,
            has_said_withheld: false,
            has_said_held_back: false,
            has_said_stranger: false,
            has_said_end: false,
            silence: LineSilence::of(line, silent_after),
        }
    }

    /// How the line has ended, if it has.
    fn end(&self) -> Option<LineChange>
        ensures { (tells_more : Bool) → IfSome result (IsTold tells_more) }
    {
        if self.progress.has_failed() {
            Some(LineChange::Failed)
        } else if self.progress.has_ended() {
            Some(LineChange::Ended)
        } else if self.progress.is_read_out() {
            Some(LineChange::ReadOut)
        } else {
            None
        }
    }

    /// That a request couldn't be sent, where that wasn't said yet.
    fn new_unsent(&mut self) -> Option<LineChange>
        ensures line { watched self.new ≡ watched self.old }
        ensures told { (tells_more : Bool) → IfSome result (IsTold tells_more) }
    {
        if self.has_said_unsent || self.progress.unsent() == 0 {
            return None;
        }
        self.has_said_unsent = true;
        Some(LineChange::Unsent)
    }

    /// That the line went on after an end of session, where that wasn't said yet.
    fn new_passed(&mut self) -> Option<LineChange>
        ensures line { watched self.new ≡ watched self.old }
        ensures told { (tells_more : Bool) → IfSome result (IsTold tells_more) }
    {
        if self.has_said_passed || self.progress.passed() == 0 {
            return None;
        }
        self.has_said_passed = true;
        Some(LineChange::Passed)
    }

    /// That a datagram of another sender was passed over, where that wasn't said yet.
    fn new_foreign(&mut self) -> Option<LineChange>
        ensures line { watched self.new ≡ watched self.old }
        ensures told { (tells_more : Bool) → IfSome result (IsTold tells_more) }
    {
        if self.has_said_foreign || self.progress.foreign() == 0 {
            return None;
        }
        self.has_said_foreign = true;
        Some(LineChange::Foreign)
    }

    /// That a datagram was withheld, where that is told and wasn't said yet.
    fn new_withheld(&mut self, tells_more: bool) -> Option<LineChange>
        ensures line { watched self.new ≡ watched self.old }
        ensures told { IfSome result (IsTold tells_more) }
    {
        if !tells_more || self.has_said_withheld || self.progress.withheld() == 0 {
            return None;
        }
        self.has_said_withheld = true;
        Some(LineChange::Withheld)
    }

    /// That a request was held back, where that is told and wasn't said yet.
    fn new_held_back(&mut self, tells_more: bool) -> Option<LineChange>
        ensures line { watched self.new ≡ watched self.old }
        ensures told { IfSome result (IsTold tells_more) }
    {
        if !tells_more || self.has_said_held_back || self.progress.held_back() == 0 {
            return None;
        }
        self.has_said_held_back = true;
        Some(LineChange::HeldBack)
    }

    /// Which session it brought that isn't its venue's, where that is told and wasn't said yet.
    fn new_stranger(&mut self, tells_more: bool) -> Option<LineChange>
        ensures line { watched self.new ≡ watched self.old }
        ensures told { IfSome result (IsTold tells_more) }
    {
        if !tells_more || self.has_said_stranger {
            return None;
        }
        let session = self.progress.stranger()?;
        self.has_said_stranger = true;
        Some(LineChange::Stranger(session))
    }

    /// Whether its address is that of a group that isn't joined, by the system's tables.
    fn is_unjoined(&self, tables: Option<&SocketTables>) -> bool {
        match (tables, self.address) {
            (Some(tables), Some(address)) => tables.groups().lacks(address),
            _ => false,
        }
    }

    /// What is new of its silence, where that is told and the line hasn't ended.
    fn new_silence(
        &mut self,
        moment: Moment,
        tells_more: bool,
        tables: Option<&SocketTables>,
    ) -> Option<LineChange>
        ensures line { watched self.new ≡ watched self.old }
        ensures told { IfSome result (IsTold tells_more) }
    {
        let silence = self.silence.look(moment, self.progress.heard_ms());
        if !tells_more || self.has_said_end {
            return None;
        }
        match silence {
            Some(Silence::Begun(ms)) if self.is_unjoined(tables) => Some(LineChange::Unjoined(ms)),
            Some(Silence::Begun(ms)) => Some(LineChange::Silent(ms)),
            Some(Silence::Over) => Some(LineChange::Heard),
            None => None,
        }
    }

    /// How the line has ended, if it has, where that wasn't said yet.
    fn new_end(&mut self) -> Option<LineChange>
        ensures line { watched self.new ≡ watched self.old }
        ensures told { (tells_more : Bool) → IfSome result (IsTold tells_more) }
    {
        if self.has_said_end {
            return None;
        }
        let end = self.end();
        self.has_said_end = end.is_some();
        end
    }

    /// With which session the line ended, where that is told.
    fn new_session(&self, tells_more: bool, end: Option<LineChange>) -> Option<LineChange>
        ensures { IfSome result (IsTold tells_more) }
    {
        if !tells_more || end != Some(LineChange::Ended) {
            return None;
        }
        match self.progress.ended_session() {
            Some(session) => Some(LineChange::EndedWith(session)),
            None => None,
        }
    }

    /// Writes what has happened to the line, if anything has.
    fn write_change<E: TextOut>(
        &self,
        names: &VenueNames,
        second: u64,
        tells_more: bool,
        change: Option<LineChange>,
        errors: &mut E,
    )
        requires { IfSome change (IsTold tells_more) }
        ensures { SaysNews (writing_of E.TextOut) names.now
            (IsNewsOfLine tells_more (watched self.now)) errors.old errors.new }
    {
        let Some(change) = change else {
            return;
        };
        let news = LineNews {
            second,
            venue: self.venue,
            line: self.line,
            change,
        };
        write_news(names, &news, errors);
    }

    /// Writes how the line has ended, if that is new, and then with which session.
    fn write_end<E: TextOut>(
        &self,
        names: &VenueNames,
        second: u64,
        tells_more: bool,
        end: Option<LineChange>,
        errors: &mut E,
    )
        requires { IfSome end (IsTold tells_more) }
        ensures { SaysNews (writing_of E.TextOut) names.now
            (IsNewsOfLine tells_more (watched self.now)) errors.old errors.new }
    {
        let session = self.new_session(tells_more, end);
        self.write_change(names, second, tells_more, end, errors);
        self.write_change(names, second, tells_more, session, errors);
    }

    /// Writes the one thing that has happened to the line, and then the other.
    fn write_both<E: TextOut>(
        &self,
        names: &VenueNames,
        second: u64,
        tells_more: bool,
        changes: (Option<LineChange>, Option<LineChange>),
        errors: &mut E,
    )
        requires first { IfSome changes.0 (IsTold tells_more) }
        requires last { IfSome changes.1 (IsTold tells_more) }
        ensures { SaysNews (writing_of E.TextOut) names.now
            (IsNewsOfLine tells_more (watched self.now)) errors.old errors.new }
    {
        let (first, last) = changes;
        self.write_change(names, second, tells_more, first, errors);
        self.write_change(names, second, tells_more, last, errors);
    }

    /// Writes what is new of the line, and where more is told with which session it ended, which
    /// other session it brought, what it held back, and whether it is silent. The system has these
    /// tables.
    fn write_news<E: TextOut>(
        &mut self,
        names: &VenueNames,
        moment: Moment,
        tells_more: bool,
        tables: Option<&SocketTables>,
        errors: &mut E,
    )
        ensures line { watched self.new ≡ watched self.old }
        ensures news { SaysNews (writing_of E.TextOut) names.now
            (IsNewsOfLine tells_more (watched self.old)) errors.old errors.new }
    {
        let second = moment.second();
        // A line ends after all that it has counted, and its end is looked at first, so that
        // nothing is said after it.
        let end = self.new_end();
        let requests = (self.new_unsent(), self.new_held_back(tells_more));
        let passed = (self.new_passed(), self.new_foreign());
        let refused = (self.new_stranger(tells_more), self.new_withheld(tells_more));
        let silence = self.new_silence(moment, tells_more, tables);
        self.write_both(names, second, tells_more, requests, errors);
        self.write_both(names, second, tells_more, passed, errors);
        self.write_both(names, second, tells_more, refused, errors);
        self.write_change(names, second, tells_more, silence, errors);
        self.write_end(names, second, tells_more, end, errors);
    }

    /// Writes how many there were of what is counted, if there were any.
    fn write_total<E: TextOut>(
        &self,
        names: &VenueNames,
        counted: LineCounted,
        count: u64,
        errors: &mut E,
    )
        ensures { SaysEach (writing_of E.TextOut)
            (flat_map (total_texts names.now) (total_if (watched self.now) counted count))
            errors.old errors.new }
    {
        if count == 0 {
            return;
        }
        let total = LineTotal {
            venue: self.venue,
            line: self.line,
            counted,
            count,
        };
        write_total(names, &total, errors);
    }

    /// What has ended the line while the run goes on, if it has ended.
    fn cause(&self) -> Option<LineEndReason> {
        match self.end() {
            Some(LineChange::Failed) => Some(LineEndReason::Failed),
            Some(LineChange::ReadOut) => Some(LineEndReason::ReadOut),
            Some(_) if self.progress.has_ended_by_own() => Some(LineEndReason::OwnSession),
            Some(_) => Some(LineEndReason::OtherSession),
            None => None,
        }
    }

    /// How many datagrams the system has dropped at the line's socket, where that is known.
    fn dropped(&self, drops: Option<&DropTable>) -> Option<u64> {
        drops?.drops_at(self.address?)
    }

    /// How many that are, where it is looked for; else 0.
    fn dropped_count(&self, drops: Option<&DropTable>) -> u64
        ensures { is_some drops.entry ≡ false → result ≡ 0 }
    {
        match drops {
            Some(drops) => self.dropped(Some(drops)).unwrap_or(0),
            None => 0,
        }
    }

    /// What is known of the line beside what it has brought.
    fn state(&self, drops: Option<&DropTable>) -> LineState {
        LineState {
            dropped: self.dropped(drops),
            end: self.cause(),
            heard: self.silence.heard(),
            foreign: self.progress.foreign(),
            withheld: self.progress.withheld(),
            unsent: self.progress.unsent(),
            held_back: self.progress.held_back(),
        }
    }

    /// Writes which session it brought that isn't its venue's, if there was one.
    fn write_stranger<E: TextOut>(
        &self,
        names: &VenueNames,
        stranger: Option<SessionName>,
        errors: &mut E,
    )
        ensures { SaysEach (writing_of E.TextOut)
            (flat_map (line_end_texts names.now (watched self.now)) (stranger_note stranger))
            errors.old errors.new }
    {
        if let Some(session) = stranger {
            let change = LineChange::Stranger(session);
            write_line_end(names, self.venue, self.line, change, errors);
        }
    }

    /// Writes that it never brought a datagram, where that is so.
    fn write_unheard<E: TextOut>(&self, names: &VenueNames, unheard: bool, errors: &mut E)
        ensures { SaysEach (writing_of E.TextOut)
            (flat_map (line_end_texts names.now (watched self.now)) (unheard_note unheard))
            errors.old errors.new }
    {
        if unheard {
            write_line_end(names, self.venue, self.line, LineChange::Unheard, errors);
        }
    }

    /// Whether it never brought a datagram, as lines A and B are to.
    fn is_unheard(&self) -> bool {
        self.line != LineId::Recovery && self.progress.heard_ms().is_none()
    }

    /// Writes what else there is to note of the line at the end.
    fn write_all_notes<E: TextOut>(&self, names: &VenueNames, errors: &mut E)
        ensures { SaysNotes (writing_of E.TextOut) names.now
            true (watched self.now) errors.old errors.new }
    {
        self.write_stranger(names, self.progress.stranger(), errors);
        self.write_unheard(names, self.is_unheard(), errors);
    }

    /// Writes what else there is to note of the line at the end, where more is told.
    fn write_notes<E: TextOut>(&self, names: &VenueNames, tells_more: bool, errors: &mut E)
        ensures { SaysNotes (writing_of E.TextOut) names.now
            tells_more (watched self.now) errors.old errors.new }
    {
        if !tells_more {
            return;
        }
        self.write_all_notes(names, errors);
    }

    /// Writes what was counted of the line, and where it is looked for what the system dropped, and
    /// what else there is to note of it.
    fn write_totals<E: TextOut>(
        &self,
        names: &VenueNames,
        drops: Option<&DropTable>,
        errors: &mut E,
    )
        ensures { SaysTotals (writing_of E.TextOut) names.now
            (is_some drops.entry) (watched self.now ∷ []) errors.old errors.new }
    {
        let tells_more = drops.is_some();
        let withheld = told_count(tells_more, self.progress.withheld());
        let held_back = told_count(tells_more, self.progress.held_back());
        self.write_total(names, LineCounted::Unsent, self.progress.unsent(), errors);
        self.write_total(names, LineCounted::Passed, self.progress.passed(), errors);
        self.write_total(names, LineCounted::Foreign, self.progress.foreign(), errors);
        self.write_total(names, LineCounted::Withheld, withheld, errors);
        self.write_total(names, LineCounted::HeldBack, held_back, errors);
        self.write_total(
            names,
            LineCounted::Dropped,
            self.dropped_count(drops),
            errors,
        );
        self.write_notes(names, tells_more, errors);
    }
}

/// A count where more is told; else 0.
fn told_count(tells_more: bool, count: u64) -> u64
    ensures { result ≡ told_if tells_more count }
{
    if tells_more { count } else { 0 }
}

/// The lines of a run, in the order of the settings, and the system's tables of their sockets and
/// groups, where more is told of the lines.
#[derive(Drop)]
pub struct LineWatches {
    lines: Vec<LineWatch>,
    tables: Option<SocketTables>,
}

impl LineWatches {
    /// These lines. Where there are tables it is told with which sessions the lines ended, which
    /// others they brought, which lines are silent, what they held back, and how many datagrams the
    /// system dropped.
    pub fn new(lines: Vec<LineWatch>, tables: Option<SocketTables>) -> LineWatches
        ensures { result ≡ record { lines = lines; tables = tables } }
    {
        LineWatches { lines, tables }
    }

    /// What the system has dropped until now, where that is looked for.
    pub(crate) fn drops(&self) -> Option<DropTable>
        ensures { is_some result ≡ is_some self.now.tables }
    {
        match &self.tables {
            Some(tables) => Some(tables.read()),
            None => None,
        }
    }

    /// What is known of a venue's line beside what it has brought, if it is watched.
    fn state(&self, venue: VenueId, line: LineId, drops: Option<&DropTable>) -> Option<LineState> {
        for watch in self.lines.as_slice() {
            if watch.venue == venue && watch.line == line {
                return Some(watch.state(drops));
            }
        }
        None
    }

    /// What a venue that has this status has come to, of which `given_up` messages were given up,
    /// with those requests alone that its lines have sent, and what is known of these.
    pub(crate) fn figures(
        &self,
        venue: VenueId,
        status: Option<VenueStatus>,
        given_up: u64,
        drops: Option<&DropTable>,
    ) -> Option<VenueFigures> {
        let state = |line| self.state(venue, line, drops);
        Some(VenueFigures {
            venue,
            status: self.with_sent(venue, status)?,
            given_up,
            a: state(LineId::A).unwrap_or(UNKNOWN_STATE),
            b: state(LineId::B).unwrap_or(UNKNOWN_STATE),
            recovery: state(LineId::Recovery),
        })
    }

    /// How many requests the venue's lines have sent.
    fn sent(&self, venue: VenueId) -> u64 {
        let mut sent: u64 = 0;
        for line in self.lines.as_slice() {
            if line.venue == venue {
                sent = sent.saturating_add(line.progress.sent());
            }
        }
        sent
    }

    /// What a venue has come to, with those requests alone that its lines have sent.
    pub fn with_sent(&self, venue: VenueId, status: Option<VenueStatus>) -> Option<VenueStatus> {
        let mut status = status?;
        status.requests = self.sent(venue);
        Some(status)
    }

    /// Writes what is new of the line at a place, if there is one.
    fn write_news_at<E: TextOut>(
        &mut self,
        names: &VenueNames,
        place: usize,
        moment: Moment,
        errors: &mut E,
    )
        ensures lines { watched_lines self.new ≡ watched_lines self.old }
        ensures news { SaysNews (writing_of E.TextOut) names.now
            (IsNewsOfLines (watched_lines self.old)) errors.old errors.new }
    {
        let tells_more = self.tables.is_some();
        let tables = self.tables.as_ref();
        match self.lines.get_mut(place) {
            Some(line) => line.write_news(names, moment, tells_more, tables, errors),
            None => {}
        }
    }

    /// Writes what is new of the lines at this moment of the run.
    pub fn write_news<E: TextOut>(&mut self, names: &VenueNames, moment: Moment, errors: &mut E)
        ensures lines { watched_lines self.new ≡ watched_lines self.old }
        ensures news { SaysNews (writing_of E.TextOut) names.now
            (IsNewsOfLines (watched_lines self.old)) errors.old errors.new }
    {
        for place in 0..self.lines.len() {
            self.write_news_at(names, place, moment, errors);
        }
    }

    /// Writes what was counted of the lines, and where it is looked for what the system dropped.
    fn write_totals_with<E: TextOut>(
        &self,
        names: &VenueNames,
        drops: Option<&DropTable>,
        errors: &mut E,
    )
        ensures { SaysTotals (writing_of E.TextOut) names.now
            (is_some drops.entry) (map watched self.now.lines.items) errors.old errors.new }
    {
        for line in self.lines.as_slice() {
            line.write_totals(names, drops, errors);
        }
    }

    /// Writes what was counted of the lines. `drops` is what the system has dropped, where that is
    /// looked for.
    pub(crate) fn write_totals<E: TextOut>(
        &self,
        names: &VenueNames,
        drops: &Option<DropTable>,
        errors: &mut E,
    )
        requires { is_some drops.now ≡ is_some self.now.tables }
        ensures { SaysTotals (writing_of E.TextOut) names.now
            (watched_lines self.now).tells_more (watched_lines self.now).lines
            errors.old errors.new }
    {
        self.write_totals_with(names, drops.as_ref(), errors);
    }
}
