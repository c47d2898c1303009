//! The sources of a feed's lines.
ghost use Rattle.std.specs.Prelude.{◌≡◌, ◌++◌, ◌<◌, [], All, Contains, IfNone, IfOk, IfSome, OnOk, flat_map, is_some, length, map, true, vec_len};
ghost use Rattle.run_settings.specs.FurtherOptions.{has_further_options};
ghost use Rattle.run_watches.specs.RunLines.{heard_lines, watched, watched_lines};
ghost use Rattle.itch_lines.specs.FeedLines.{IsInItch, source_of};
ghost use Rattle.udp_listening.specs.Lines.{line_at, line_below, run_lines, venue_of_line};
ghost use Rattle.udp_listening.specs.ItchEnds.{itch_venues, named_venue, shared_venue};
ghost use Rattle.udp_listening.specs.Reports.{IsLineOf, task_line};
ghost use Rattle.udp_listening.specs.Settings.{IsSourceOf, end_rule_of, most_read_of};

use crate::itch_statuses::ItchStatuses;
use crate::listen_sockets::BoundLine;
use crate::next_sessions::{end_by, names_after, sessions_of};
use best_rows::has_times;
use feed_types::{LineId, VenueId};
use itch_lines::{FeedLine, ItchLine, ItchRules, VenueShare};
use live_feed::{LineSource, LineTask};
use run_settings::{EndNumberRule, EndRule, ListenSettings};
use run_watches::{LineWatch, LineWatches};
use socket_tables::SocketTables;
use std::alloc::{AllocError, Global};
use std::mem;
use std::net::UdpSocket;
use std::rt::Clock;
use udp_lines::{LineProgress, LineUse, Requests, UdpLine, UdpLineSettings, VenueMarks};
use venue_normaliser::{EndNumber, NormaliserSettings, VenueNormaliser};

/// For how many milliseconds after the session's end of a venue in ITCH, or after something came of
/// what is missing, a reply is awaited.
const REPLY_WAIT_MS: u64 = 2_000;

/// The source of a line of a run.
pub type UdpSource<C> = UdpLine<UdpSocket, C>;

/// A line of a run: its source, or a line in ITCH over that.
pub type ListenSource<C> = FeedLine<UdpSource<C>, C>;

/// The line at a place of the settings: line A's and then line B's, those of venue 0 first.
pub fn line_at(place: usize) -> LineId
    ensures { result ≡ line_at place }
{
    if place % 2 == 0 { LineId::A } else { LineId::B }
}

/// What the lines of a venue share: their marks, how far its lines A and B are, and where the venue
/// is in ITCH its normaliser.
#[derive(Drop)]
struct VenueShares {
    marks: VenueMarks,
    progress: Vec<LineProgress>,
    itch: Option<VenueShare>,
}

/// Returns what the lines of a venue in ITCH share of its normaliser.
fn itch_share(
    alloc: Global,
    settings: &ListenSettings,
    venue: VenueId,
) -> Result<VenueShare, AllocError>
    requires { venue < vec_len settings.now.feed.sessions }
    ensures { IfOk result (λ share. share.venue ≡ venue) }
{
    let of_normaliser = NormaliserSettings {
        window: settings.feed.window,
        most_orders: settings.itch.orders as usize,
        end_number: match settings.itch.end_number {
            EndNumberRule::Next => EndNumber::Next,
            EndNumberRule::Last => EndNumber::Last,
        },
    };
    let sessions = settings.feed.sessions.as_slice();
    let first = sessions[venue.index()];
    let symbols = settings.feed.symbols.as_slice();
    let Ok(normaliser) = VenueNormaliser::new(alloc, venue, first, symbols, &of_normaliser) else {
        return Err(AllocError);
    };
    let following = names_after(alloc, venue, settings.next.as_slice())?;
    VenueShare::new(alloc, normaliser, following)
}

/// Returns the same where the settings name the venue in ITCH.
#[tactic(auto, using(crate::proofs::Named::none_named, crate::proofs::Named::one_named))]
fn itch_share_if_named(
    alloc: Global,
    settings: &ListenSettings,
    venue: VenueId,
) -> Result<Option<VenueShare>, AllocError>
    requires { venue < vec_len settings.now.feed.sessions }
    ensures { IfOk result (λ itch.
        shared_venue itch ≡ named_venue settings.now.itch.venues.items venue) }
{
    if !settings.itch.has(venue) {
        return Ok(None);
    }
    Ok(Some(itch_share(alloc, settings, venue)?))
}

/// Returns the rules by which lines in ITCH go on.
fn itch_rules(settings: &ListenSettings) -> ItchRules {
    ItchRules {
        request_after_ms: u64::from(settings.request_wait()),
        skip_after_ms: settings.skip_after.map(u64::from),
        reply_wait_ms: if settings.request.is_some() {
            REPLY_WAIT_MS
        } else {
            0
        },
    }
}

impl VenueShares {
    /// Returns what the lines of a venue of the settings share, of which none is made.
    fn new(
        alloc: Global,
        settings: &ListenSettings,
        venue: VenueId,
    ) -> Result<VenueShares, AllocError>
        requires { venue < vec_len settings.now.feed.sessions }
        ensures { IfOk result (λ shares.
            shared_venue shares.itch ≡ named_venue settings.now.itch.venues.items venue) }
    {
        Ok(VenueShares {
            marks: VenueMarks::new(alloc)?,
            progress: Vec::new(alloc),
            itch: itch_share_if_named(alloc, settings, venue)?,
        })
    }

    /// Returns how the line is used: line R goes on until the lines that were made before it have
    /// ended.
    fn use_of(&mut self, alloc: Global, line: LineId) -> LineUse {
        match line {
            LineId::A => LineUse::A,
            LineId::B => LineUse::B,
            LineId::Recovery => {
                LineUse::Recovery(mem::replace(&mut self.progress, Vec::new(alloc)))
            }
        }
    }
}

/// Returns where the requests of a line go.
fn requests_of(settings: &ListenSettings, socket: Option<UdpSocket>) -> Requests {
    match (settings.request, socket) {
        (None, _) => Requests::Dropped,
        (Some(server), None) => Requests::FromLine(server),
        (Some(server), Some(socket)) => Requests::From(socket, server),
    }
}

/// Which ends of session end a line of a run that ends with these: none ends line R.
fn end_rule_of(line: LineId, end: EndRule) -> EndRule
    ensures { result ≡ end_rule_of line end }
{
    match line {
        LineId::A | LineId::B => end,
        LineId::Recovery => EndRule::NoSession,
    }
}

/// Returns how many datagrams a line reads at most: those of the run, and of line R any number.
fn most_read_of(line: LineId, datagrams: Option<u32>) -> Option<u32>
    ensures { result ≡ most_read_of line datagrams }
{
    match line {
        LineId::A | LineId::B => datagrams,
        LineId::Recovery => None,
    }
}

/// Has a line read on after its session's end while a reply is awaited, where its venue is in ITCH.
fn read_on<C: Drop>(source: &mut UdpSource<C>, itch: &Option<VenueShare>) -> Result<(), AllocError>
    ensures rest { source.new ≡ record (source.old) { awaited = source.new.awaited } }
    ensures own { IfNone itch.now (source.new ≡ source.old) }
    ensures itch { IfSome itch.now (λ share. OnOk result (is_some source.new.awaited ≡ true)) }
{
    if let Some(itch) = itch {
        source.read_on_for(itch.share_awaited()?);
    }
    Ok(())
}

/// Returns the source of the line, which is of a venue of the settings.
fn source_of<C: Clock + Drop>(
    alloc: Global,
    settings: &ListenSettings,
    bound: BoundLine,
    shares: &mut VenueShares,
    clock: C,
) -> Result<UdpSource<C>, AllocError>
    requires { bound.venue < vec_len settings.now.feed.sessions }
    ensures is { IfOk result (IsSourceOf settings.now bound.venue bound.line) }
    ensures records { IfOk result (λ source. source.records ≡ bound.records) }
{
    let BoundLine {
        venue,
        line,
        socket,
        requests,
        records,
    } = bound;
    let following = names_after(alloc, venue, settings.next.as_slice())?;
    let first = settings.feed.sessions[venue.index()];
    let sessions = sessions_of(alloc, first, following.as_slice())?;
    let end = end_by(following.as_slice(), settings.end);
    let of_line = UdpLineSettings {
        venue,
        line: shares.use_of(alloc, line),
        session: sessions.last,
        end: end_rule_of(line, end),
        datagrams: most_read_of(line, settings.datagrams),
        seconds: settings.seconds,
        requests: requests_of(settings, requests),
        senders: settings.senders.copied(alloc)?,
        most_ahead: settings.most_lead(),
        marks: shares.marks.share()?,
        marks_heard: settings.has_further_options(),
        timed: has_times(settings.format),
        records,
    };
    let mut source = UdpLine::new(alloc, of_line, socket, clock)?;
    source.follow_after(sessions.earlier);
    read_on(&mut source, &shares.itch)?;
    shares.progress.push(source.share_progress()?)?;
    Ok(source)
}

/// Returns the line over this source: in ITCH where its venue is.
fn line_over<C: Clock + Clone + Drop>(
    settings: &ListenSettings,
    shares: &VenueShares,
    line: LineId,
    source: UdpSource<C>,
    alloc: Global,
    clock: &C,
) -> Result<ListenSource<C>, AllocError>
    ensures source { IfOk result (λ over. source_of over ≡ source) }
    ensures venue { IfOk result (λ over. venue_of_line over ≡ source.venue) }
    ensures itch { IfOk result (λ over. IsInItch over
        → Contains settings.now.itch.venues.items source.venue) }
    ensures named { IfOk result (λ over. Contains settings.now.itch.venues.items source.venue
        → IsInItch over) }
{
    if !settings.itch.has(source.venue()) {
        return Ok(FeedLine::own(source));
    }
    let Some(share) = &shares.itch else {
        return Err(AllocError);
    };
    let clock = if has_times(settings.format) {
        Some(clock.clone()?)
    } else {
        None
    };
    let share = share.share()?;
    let rules = itch_rules(settings);
    Ok(FeedLine::itch(ItchLine::new(alloc, source, line, share, rules, clock)))
}

/// Returns what the lines of each venue of the settings share, of which none is made.
#[tactic(auto, using(crate::proofs::Named::all_shares, crate::proofs::Named::share_more))]
fn venue_shares(alloc: Global, settings: &ListenSettings) -> Result<Vec<VenueShares>, AllocError>
    ensures all { IfOk result (λ shares.
        length shares.items ≡ vec_len settings.now.feed.sessions) }
    ensures itch { IfOk result (λ shares.
        flat_map (λ s. shared_venue s.itch) shares.items ≡ itch_venues settings.now) }
{
    let venues = settings.feed.sessions.len();
    let mut shares = Vec::with_capacity(alloc, venues)?;
    for place in 0..venues {
        shares.push(VenueShares::new(alloc, settings, VenueId::at(place))?)?;
    }
    Ok(shares)
}

/// Appends what the lines of a venue in ITCH share, where these share it.
fn append_share(shares: &mut Vec<VenueShare>, of: &VenueShares) -> Result<(), AllocError>
    ensures { OnOk result (map (λ share. share.venue) shares.new.items
        ≡ map (λ share. share.venue) shares.old.items ++ shared_venue of.now.itch) }
{
    if let Some(share) = &of.itch {
        shares.push(share.share()?)?;
    }
    Ok(())
}

/// Returns what the lines of venues in ITCH share, in order.
fn itch_shares(alloc: Global, venues: &[VenueShares]) -> Result<Vec<VenueShare>, AllocError>
    ensures { IfOk result (λ shares. map (λ share. share.venue) shares.items
        ≡ flat_map (λ s. shared_venue s.itch) venues.now) }
{
    let mut shares = Vec::new(alloc);
    for venue in venues {
        append_share(&mut shares, venue)?;
    }
    Ok(shares)
}

/// The lines of a run, and what those of its venues in ITCH share.
#[derive(Drop)]
pub struct ListenTasks<C> {
    /// The lines, in the order of their sockets.
    pub tasks: Vec<LineTask<ListenSource<C>>>,
    /// What the lines of each venue in ITCH share.
    pub itch: Vec<VenueShare>,
}

/// The lines of a run, and the same lines for the thread beside it.
#[derive(Drop)]
pub struct ListenLines<C> {
    /// The lines of the run.
    pub run: ListenTasks<C>,
    /// What becomes of the lines.
    pub watches: LineWatches,
    /// What its venues in ITCH show.
    pub itch: ItchStatuses<VenueShare>,
}

/// The lines of a run that are made so far.
#[derive(Drop)]
struct LinesMade<C> {
    tasks: Vec<LineTask<ListenSource<C>>>,
    watches: Vec<LineWatch>,
    /// Of each venue of the settings.
    venues: Vec<VenueShares>,
    /// What the lines of each venue in ITCH share.
    itch: Vec<VenueShare>,
}

impl<C: Clock + Clone + Drop> LinesMade<C> {
    /// Returns the lines of a run of the settings, of which none is made.
    fn none(alloc: Global, settings: &ListenSettings) -> Result<LinesMade<C>, AllocError>
        ensures tasks { IfOk result (λ made. made.tasks.items ≡ []) }
        ensures watches { IfOk result (λ made. made.watches.items ≡ []) }
        ensures venues { IfOk result (λ made. length made.venues.items
            ≡ vec_len settings.now.feed.sessions) }
        ensures itch { IfOk result (λ made.
            map (λ share. share.venue) made.itch.items ≡ itch_venues settings.now) }
    {
        let venues = venue_shares(alloc, settings)?;
        Ok(LinesMade {
            tasks: Vec::new(alloc),
            watches: Vec::new(alloc),
            itch: itch_shares(alloc, venues.as_slice())?,
            venues,
        })
    }

    /// Makes the line that this socket receives, unless it is of a venue that the settings haven't.
    #[tactic(auto, using(crate::proofs::Sourced::made_more))]
    fn push(
        &mut self,
        alloc: Global,
        settings: &ListenSettings,
        bound: BoundLine,
        clock: &C,
    ) -> Result<(), AllocError>
        requires { length self.old.venues.items ≡ vec_len settings.now.feed.sessions }
        ensures tasks { OnOk result (map task_line self.new.tasks.items
            ≡ map task_line self.old.tasks.items
            ++ line_below (vec_len settings.now.feed.sessions) bound) }
        ensures watches { OnOk result (map watched self.new.watches.items
            ≡ map watched self.old.watches.items
            ++ line_below (vec_len settings.now.feed.sessions) bound) }
        ensures made { OnOk result (All (IsLineOf settings.now) self.old.tasks.items
            → All (IsLineOf settings.now) self.new.tasks.items) }
        ensures venues { length self.new.venues.items ≡ length self.old.venues.items }
        ensures itch { self.new.itch.items ≡ self.old.itch.items }
    {
        let Some(shares) = self.venues.get_mut(bound.venue.index()) else {
            return Ok(());
        };
        let line = bound.line;
        let address = bound.socket.local_addr().ok();
        let source = source_of(alloc, settings, bound, shares, clock.clone()?)?;
        let progress = source.share_progress()?;
        let silent_after = settings.silence_limit();
        let watch = LineWatch::new(source.venue(), line, progress, address, silent_after);
        self.watches.push(watch)?;
        let source = line_over(settings, shares, line, source, alloc, clock)?;
        self.tasks.push(LineTask { line, source })?;
        Ok(())
    }

    /// Makes the lines that these sockets receive, in their order, but for those of venues that the
    /// settings haven't.
    fn over(
        alloc: Global,
        settings: &ListenSettings,
        sockets: Vec<BoundLine>,
        clock: &C,
    ) -> Result<LinesMade<C>, AllocError>
        ensures tasks { IfOk result (λ made. map task_line made.tasks.items
            ≡ run_lines settings.now sockets.items) }
        ensures watches { IfOk result (λ made. map watched made.watches.items
            ≡ run_lines settings.now sockets.items) }
        ensures made { IfOk result (λ made. All (IsLineOf settings.now) made.tasks.items) }
        ensures itch { IfOk result (λ made.
            map (λ share. share.venue) made.itch.items ≡ itch_venues settings.now) }
    {
        let mut made = LinesMade::none(alloc, settings)?;
        for bound in sockets {
            made.push(alloc, settings, bound, clock)?;
        }
        Ok(made)
    }
}

/// The system's tables, where more is told of the lines: by settings with further options.
fn tables_if_told(settings: &ListenSettings, tables: SocketTables) -> Option<SocketTables>
    ensures { is_some result ≡ has_further_options settings.now }
{
    if settings.has_further_options() {
        Some(tables)
    } else {
        None
    }
}

/// Makes the sources of the lines that these sockets receive, in their order, but for those of
/// venues that the settings haven't.
pub fn lines_over<C: Clock + Clone + Drop>(
    alloc: Global,
    settings: &ListenSettings,
    sockets: Vec<BoundLine>,
    tables: SocketTables,
    clock: &C,
) -> Result<ListenLines<C>, AllocError>
    ensures tasks { IfOk result (λ lines. map task_line lines.run.tasks.items
        ≡ run_lines settings.now sockets.items) }
    ensures watches { IfOk result (λ lines. watched_lines lines.watches
        ≡ heard_lines settings.now (run_lines settings.now sockets.items)) }
    ensures made { IfOk result (λ lines. All (IsLineOf settings.now) lines.run.tasks.items) }
    ensures itch { IfOk result (λ lines.
        map (λ share. share.venue) lines.run.itch.items ≡ itch_venues settings.now) }
{
    let made = LinesMade::over(alloc, settings, sockets, clock)?;
    Ok(ListenLines {
        itch: ItchStatuses::of(alloc, made.itch.as_slice())?,
        run: ListenTasks {
            tasks: made.tasks,
            itch: made.itch,
        },
        watches: LineWatches::new(made.watches, tables_if_told(settings, tables)),
    })
}
