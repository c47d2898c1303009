//! A format of captures whose datagrams are watched.
ghost use Rattle.text_out.specs.Members.{writing_of};
ghost use Rattle.std.specs.Prelude.{◌≡◌, [], ◌∷◌, ◌++◌, IfNone, IfSome, None, Some, length, slice_get, slice_index_or};
ghost use Rattle.std.specs.Str.{bytes_eq};
ghost use Rattle.text_out.specs.StandardError.{SaysEach};
ghost use Rattle.nbbo_runs.specs.Sessions.{datagram_sightings, is_first, name_in, named_sightings, sighted_by, sighting_of};
ghost use Rattle.nbbo_runs.specs.VenueLooks.{LooksBy, LooksWith, step_datagram, look_at, look_texts};
ghost use Rattle.nbbo_runs.specs.Watches.{IsWatched, WatchedReads, first_venues_texts, seen_texts, silent_lines_texts, silent_texts, unwatched, venue_texts, watch_texts, watched_by, watched_texts};
ghost use Rattle.nbbo_runs.specs.WatchLaws.{watched_longer, watched_more, watched_none};

use crate::end_report::EndReport;
use crate::given_lines::is_given;
use crate::named_sessions::NamedSessions;
use crate::session_report::write_sessions;
use crate::session_row::{SessionSighting, VenueSession};
use crate::session_table::SessionTable;
use crate::venue_watch::VenueWatch;
use capture_records::{Record, RecordFormat, Step};
use event_sinks::ReplayStop;
use feed_types::{LineId, SessionName, VenueId, is_same_name};
use message_forms::{Payload, look_after};
use mold_packet::HEADER_LEN;
use run_settings::{NextSession, RunInput, RunSettings};
use text_out::{TextOut, write_number, write_stderr};

/// The most venues of a capture.
const VENUES: usize = 16;

/// A format of captures, and what is watched of the datagrams that it reads: which lines have one,
/// what the venues' messages look like, and which are of another session than their venue's first.
/// The sessions that follow that are named.
#[derive(Drop)]
pub struct WatchedFormat<'a, F> {
    format: F,
    venues: [VenueWatch; VENUES],
    looks: [Payload; VENUES],
    seen: SessionTable,
    sessions: &'a [SessionName],
    next: &'a [NextSession],
    input: &'a RunInput,
}

/// Notes a datagram, where one came.
#[inline(always)]
fn watch<F>(venues: &mut [VenueWatch], step: &Step<'_, F>)
    ensures { venues.new ≡ watched_by venues.old step.now }
{
    match step {
        Step::Came {
            record: Record::Datagram { venue, line, .. },
            ..
        } => {
            let place = venue.index();
            if place < venues.len() {
                venues[place].note(*line);
            }
        }
        _ => {}
    }
}

/// Notes what the messages of a datagram make those of its venue look like.
#[inline(always)]
fn note_look(looks: &mut [Payload], venue: VenueId, bytes: &[u8])
    ensures { LooksWith looks.old venue bytes.now looks.new }
{
    let place = venue.index();
    if place >= looks.len() {
        return;
    }
    let before = look_at(looks, place);
    if before.is_own() {
        return;
    }
    looks[place] = look_after(before, bytes);
}

/// Returns the venue and the bytes of a datagram, where one came.
#[inline(always)]
fn step_datagram<'b, F>(step: &Step<'b, F>) -> Option<(VenueId, &'b [u8])>
    ensures found { IfSome result (λ d. step_datagram step.now ≡ Some (d.0, d.1.now)) }
    ensures none { IfNone result (step_datagram step.now ≡ None) }
{
    match step {
        Step::Came {
            record: Record::Datagram { venue, bytes, .. },
            ..
        } => Some((*venue, *bytes)),
        _ => None,
    }
}

/// Notes what a record makes the messages of its venue look like.
#[inline(always)]
fn note_looks<F>(looks: &mut [Payload], step: &Step<'_, F>)
    ensures { LooksBy looks.old (step_datagram step.now) looks.new }
{
    match step_datagram(step) {
        Some((venue, bytes)) => note_look(looks, venue, bytes),
        None => {}
    }
}

/// Returns the name of the session in a datagram, if that is long enough for a packet's header.
// It is lent: a copy for each datagram took some 40 instructions.
#[inline(always)]
fn name_in(bytes: &[u8]) -> Option<&SessionName>
    ensures found { IfSome result (λ name. name_in bytes.now ≡ Some name.now) }
    ensures none { IfNone result (name_in bytes.now ≡ None) }
{
    if bytes.len() < HEADER_LEN {
        return None;
    }
    bytes.first_chunk::<10>()
}

/// Returns whether the first session, `first`, has this name.
#[inline(always)]
fn has_name(first: &SessionName, name: &SessionName) -> bool
    ensures { result ≡ bytes_eq first.now name.now }
{
    is_same_name(first, name)
}

/// Returns whether the venue's first session has this name, where there is such a venue.
#[inline(always)]
fn is_first(sessions: &[SessionName], venue: VenueId, name: &SessionName) -> bool
    ensures { result ≡ is_first (slice_get sessions.now venue) name.now }
{
    match sessions.get(venue.index()) {
        Some(first) => has_name(first, name),
        None => false,
    }
}

/// Notes that a datagram of a session came at a venue, or a renewal that names it.
// Few datagrams need it: in the loop over records room would be cleared for what it makes.
#[cold]
#[inline(never)]
fn note_seen(seen: &mut SessionTable, venue: VenueId, name: &SessionName, is_renewal: bool)
    ensures { seen.new ≡ seen.old ++ sighting_of venue name.now is_renewal ∷ [] }
{
    seen.count(&SessionSighting {
        session: VenueSession { venue, name: *name },
        is_renewal,
    });
}

/// Notes that a session is named.
fn note_named(seen: &mut SessionTable, session: &NextSession)
    ensures { seen.new ≡ seen.old ++ named_sightings (session.now ∷ []) }
{
    note_seen(seen, session.venue, &session.name, true);
}

/// Notes that these sessions are named.
fn name_sessions(seen: &mut SessionTable, next: &[NextSession])
    ensures { seen.new ≡ seen.old ++ named_sightings next.now }
{
    for session in next {
        note_named(seen, session);
    }
}

/// Notes a datagram of another session than the venue's first.
#[inline(always)]
fn note_datagram(seen: &mut SessionTable, sessions: &[SessionName], venue: VenueId, bytes: &[u8])
    ensures { seen.new ≡ seen.old
        ++ datagram_sightings venue (slice_get sessions.now venue) (name_in bytes.now) }
{
    let Some(name) = name_in(bytes) else {
        return;
    };
    if is_first(sessions, venue, name) {
        return;
    }
    note_seen(seen, venue, name, false);
}

/// Notes what a record shows of sessions that aren't their venue's first.
#[inline(always)]
fn note_session<F>(seen: &mut SessionTable, sessions: &[SessionName], step: &Step<'_, F>)
    ensures { seen.new ≡ sighted_by sessions.now seen.old step.now }
{
    match step {
        Step::Came {
            record: Record::Datagram { venue, bytes, .. },
            ..
        } => note_datagram(seen, sessions, *venue, bytes),
        Step::Came {
            record: Record::Renewal { venue, session },
            ..
        } => {
            // A copy: where the call is lent a part of the step, that stays in memory.
            let name = *session;
            note_seen(seen, *venue, &name, true);
        }
        _ => {}
    }
}

/// Writes that a line had no datagram, where it had none.
fn write_silent<E: TextOut>(venue: usize, line: &str, heard: bool, errors: &mut E)
    ensures { SaysEach (writing_of E.TextOut)
        (silent_texts venue line.now heard) errors.old errors.new }
{
    if heard {
        return;
    }
    write_stderr("nbbo: venue ", errors);
    write_number(venue as u64, errors);
    write_stderr(" line ", errors);
    write_stderr(line, errors);
    write_stderr(" had no datagram\n", errors);
}

/// Returns what was watched of the venue at a place.
fn watch_at(venues: &[VenueWatch], place: usize) -> VenueWatch
    ensures { result ≡ slice_index_or venues.now place unwatched }
{
    if place < venues.len() {
        return venues[place];
    }
    VenueWatch::new()
}

/// Returns what the messages of the venue at a place look like.
#[inline(always)]
fn look_at(looks: &[Payload], place: usize) -> Payload
    ensures { result ≡ look_at looks.now place }
{
    if place < looks.len() {
        return looks[place];
    }
    Payload::Neither
}

/// Writes that the messages of a venue look like ITCH, if they do.
fn write_look<E: TextOut>(venue: usize, look: Payload, errors: &mut E)
    ensures { SaysEach (writing_of E.TextOut) (look_texts venue look) errors.old errors.new }
{
    match look {
        Payload::Itch => {
            write_stderr("nbbo: venue ", errors);
            write_number(venue as u64, errors);
            write_stderr(
                "'s messages look like ITCH; normalise turns them into quotations\n",
                errors,
            );
        }
        Payload::Neither | Payload::Own => {}
    }
}

/// Writes which of a venue's lines that are given had no datagram.
fn write_silent_lines<E: TextOut>(input: &RunInput, venue: usize, w: &VenueWatch, errors: &mut E)
    ensures { SaysEach (writing_of E.TextOut)
        (silent_lines_texts input.now venue w.now) errors.old errors.new }
{
    let a = w.a || !is_given(input, venue, LineId::A);
    let b = w.b || !is_given(input, venue, LineId::B);
    write_silent(venue, "A", a, errors);
    write_silent(venue, "B", b, errors);
}

/// Writes what was watched of a venue's lines that are given, and of its messages.
fn write_venue<E: TextOut>(
    input: &RunInput,
    venue: usize,
    w: &VenueWatch,
    look: Payload,
    errors: &mut E,
)
    ensures { SaysEach (writing_of E.TextOut)
        (venue_texts input.now venue w.now look) errors.old errors.new }
{
    write_silent_lines(input, venue, w, errors);
    write_look(venue, look, errors);
}

/// Writes what was watched of the lines and messages of the first venues.
fn write_venues<E: TextOut>(
    input: &RunInput,
    count: usize,
    venues: &[VenueWatch],
    looks: &[Payload],
    errors: &mut E,
)
    ensures { SaysEach (writing_of E.TextOut)
        (first_venues_texts input.now venues.now looks.now count) errors.old errors.new }
{
    for venue in 0..count {
        let look = look_at(looks, venue);
        write_venue(input, venue, &watch_at(venues, venue), look, errors);
    }
}

impl<F> WatchedFormat<'_, F> {
    /// Writes what was watched of the venues' lines and messages, and of sessions, where the
    /// venues'
    /// last ones have these ordinals.
    fn write_seen<E: TextOut>(&self, ordinals: &[u64], errors: &mut E)
        ensures { SaysEach (writing_of E.TextOut)
            (seen_texts self.now ordinals.now) errors.old errors.new }
    {
        let named = NamedSessions {
            next: self.next,
            ordinals,
        };
        let count = self.sessions.len();
        write_venues(self.input, count, &self.venues, &self.looks, errors);
        write_sessions(&named, self.seen.rows(), errors);
    }

    /// Writes it after a run that came to its end.
    fn write_watch<O, E: TextOut>(&self, ordinals: &[u64], outcome: &Result<(), O>, errors: &mut E)
        ensures { SaysEach (writing_of E.TextOut)
            (watch_texts outcome.now self.now ordinals.now) errors.old errors.new }
    {
        match outcome {
            Ok(()) => self.write_seen(ordinals, errors),
            Err(_) => {}
        }
    }
}

impl<'a, F> WatchedFormat<'a, F> {
    /// Returns the format, of which nothing was read, for the input, the venues and the sessions of
    /// the settings.
    pub fn new(format: F, settings: &'a RunSettings) -> WatchedFormat<'a, F>
        ensures { IsWatched format settings.now.input settings.now.feed.sessions.items
            settings.now.next_sessions.items result }
    {
        let mut seen = SessionTable::new();
        let next = settings.next_sessions.as_slice();
        name_sessions(&mut seen, next);
        WatchedFormat {
            format,
            venues: [VenueWatch::new(); VENUES],
            looks: [Payload::Neither; VENUES],
            seen,
            sessions: settings.feed.sessions.as_slice(),
            next,
            input: &settings.input,
        }
    }
}

impl<F: RecordFormat> RecordFormat for WatchedFormat<'_, F> {
    type Fault = F::Fault;

    ghost reads = { WatchedReads F.reads };

    ghost wants = { λ s xs. F.wants s.format xs };

    ghost is_bad = { λ s xs fault. F.is_bad s.format xs fault };

    ghost is_whole = { λ s. F.is_whole s.format };

    ghost venues = { λ s. F.venues s.format };

    ghost reads_none = { watched_none F.reads F.reads_none };

    ghost reads_more = { watched_more F.reads F.reads_more };

    ghost reads_longer = { watched_longer F.reads F.reads_longer };

    ghost reads_venues = { λ s t xs ys rs read.
        F.reads_venues s.format t.format xs ys rs read.0 };

    #[inline(always)]
    fn next<'b>(&mut self, bytes: &'b [u8]) -> Step<'b, F::Fault> {
        let step = self.format.next(bytes);
        watch(&mut self.venues, &step);
        note_looks(&mut self.looks, &step);
        note_session(&mut self.seen, self.sessions, &step);
        step
    }

    fn may_end(&self) -> bool {
        self.format.may_end()
    }
}

impl<F: EndReport> EndReport for WatchedFormat<'_, F> {
    ghost end_texts = { watched_texts F.end_texts };

    ghost is_timed = { λ s. F.is_timed s.format };

    fn has_times(&self) -> bool {
        self.format.has_times()
    }

    fn write_end_report<E: TextOut>(
        &self,
        ordinals: &[u64],
        outcome: &Result<(), ReplayStop<F::Fault>>,
        errors: &mut E,
    ) {
        self.write_watch(ordinals, outcome, errors);
        self.format.write_end_report(ordinals, outcome, errors);
    }
}
