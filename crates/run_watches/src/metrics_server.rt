//! The counts of a run, served to clients that ask for them by HTTP.

use crate::gap_watches::GapWatches;
use crate::line_watch::LineWatches;
use crate::output_watch::OutputWatch;
use feed_types::{MAX_VENUES, VenueId};
use run_metrics::{MetricsClients, Reply, RunFigures, VenueFigures, answer};
use run_settings::VenueNames;
use socket_tables::DropTable;
use std::alloc::{AllocError, Global};
use std::net::TcpListener;
use venue_lines::VenueStatus;

/// How many milliseconds are between two reads of the system's tables at least.
const DROPS_MS: u64 = 1_000;

/// What the system had dropped when its tables were last read.
#[derive(Drop)]
struct LastDrops {
    table: Option<DropTable>,
    /// How many milliseconds after the beginning of the run they are read again.
    due_ms: u64,
}

impl LastDrops {
    /// What the system has dropped at the sockets of these lines, where that is looked for, or what
    /// it had less than a second ago.
    fn at(&mut self, elapsed_ms: u64, lines: &LineWatches) -> Option<&DropTable> {
        if elapsed_ms >= self.due_ms {
            self.table = lines.drops();
            self.due_ms = elapsed_ms.saturating_add(DROPS_MS);
        }
        self.table.as_ref()
    }
}

/// The server of a run's metrics. It waits for nobody.
#[derive(Drop)]
pub struct MetricsServer {
    alloc: Global,
    clients: MetricsClients,
    drops: LastDrops,
}

/// What is seen of a run that is served.
#[derive(Clone, Copy)]
pub(crate) struct RunSeen<'a> {
    /// How many milliseconds it has gone on.
    pub elapsed_ms: u64,
    pub lines: &'a LineWatches,
    pub gaps: &'a GapWatches,
    pub output: &'a OutputWatch,
    /// What stands for a venue.
    pub names: &'a VenueNames,
}

/// The figures of the venues of a run, at whose sockets the system has dropped this, and of which
/// `status` returns what one has come to, or None where there is none.
fn venues_by<S: Fn(VenueId) -> Option<VenueStatus>>(
    alloc: Global,
    seen: &RunSeen<'_>,
    drops: Option<&DropTable>,
    status: S,
) -> Result<Vec<VenueFigures>, AllocError>
    requires { S.IsAlwaysCallable status }
{
    let mut venues = Vec::new(alloc);
    for place in 0..MAX_VENUES {
        let venue = VenueId::at(place);
        let given_up = seen.gaps.given_up(place);
        if let Some(figures) = seen.lines.figures(venue, status(venue), given_up, drops) {
            venues.push(figures)?;
        }
    }
    Ok(venues)
}

/// The figures of a run with these venues, for which these names stand.
fn run_figures<'a>(
    seen: &RunSeen<'_>,
    venues: &'a [VenueFigures],
    names: &'a VenueNames,
) -> RunFigures<'a> {
    let rows = seen.output.rows();
    RunFigures {
        seconds: seen.elapsed_ms / 1_000,
        changes: rows.taken(),
        waiting: seen.output.waiting(),
        printed: rows.printed(),
        timed: rows.timed(),
        latency: rows.latency(),
        untaken: seen.output.untaken(),
        venues,
        names,
    }
}

/// The answer of a reply, of a run at whose lines' sockets the system has dropped this.
fn answer_by<S: Fn(VenueId) -> Option<VenueStatus>>(
    alloc: Global,
    reply: Reply,
    seen: &RunSeen<'_>,
    drops: Option<&DropTable>,
    status: S,
) -> Result<Vec<u8>, AllocError>
    requires { S.IsAlwaysCallable status }
{
    let venues = venues_by(alloc, seen, drops, status)?;
    let names = *seen.names;
    answer(alloc, reply, &run_figures(seen, venues.as_slice(), &names))
}

impl MetricsServer {
    /// A server of the clients that connect to this listener, which never waits, if there is one.
    pub fn of(alloc: Global, listener: Option<TcpListener>) -> Option<MetricsServer> {
        match listener {
            Some(listener) => Some(MetricsServer {
                alloc,
                clients: MetricsClients::new(alloc, listener),
                drops: LastDrops {
                    table: None,
                    due_ms: 0,
                },
            }),
            None => None,
        }
    }

    /// Goes on with the client at a place.
    fn go_on_at<S>(&mut self, place: usize, seen: &RunSeen<'_>, status: S)
    where
        S: Fn(VenueId) -> Option<VenueStatus>,
        requires { S.IsAlwaysCallable status }
    {
        if let Some(reply) = self.clients.read_request(place) {
            let drops = self.drops.at(seen.elapsed_ms, seen.lines);
            self.clients
                .give(place, answer_by(self.alloc, reply, seen, drops, status));
        }
        self.clients.go_on(place, seen.elapsed_ms);
    }

    /// Looks at the clients, unless it has done so just before: takes new ones, reads what they
    /// ask, writes what they take, and lets those go that have gone or whose time is over. `status`
    /// returns what a venue of the run has come to, or None where there is none.
    pub(crate) fn serve<S>(&mut self, seen: &RunSeen<'_>, status: S)
    where
        S: Fn(VenueId) -> Option<VenueStatus>,
        requires { S.IsAlwaysCallable status }
    {
        for place in 0..self.clients.look(seen.elapsed_ms) {
            self.go_on_at(place, seen, &status);
        }
        self.clients.let_go();
    }
}
