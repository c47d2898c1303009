//! An example of linking the crates, by threads: a live feed of two venues, each with two lines,
//! and two subscribers with filters and strategies of their own; and the same lines again, with an
//! attendant beside the run that polls a subscriber of its own and looks at the venues.
//! docs/LINKING.md goes through it.
#![tactic(auto)]

ghost use Rattle.std.specs.Prelude.{◌≡◌, ℕ, IfSome, slice_get};
ghost use Rattle.live_feed.specs.Allowed.{IsAllowed};
ghost use Rattle.live_feed.specs.settle.Settlements.{IsServed};

use live_feed::{
    Advice, Anything, Attendant, Datagram, FeedConfig, FeedEnd, FeedName, FeedTask, Filter, Limits,
    LineId, LineSource, LineTask, LiveFeed, National, Notice, OwnLog, Request, RunRules, RunView,
    Settlement, SourceFault, Strategy, SubscriberId, Subscription, SymbolName, Terms, Unattended,
    Unwatched, VenueId,
};
use std::alloc::{AllocError, Global};
use std::collections::VecDeque;
use std::marker::Brand;
use std::sync::Wait;
use std::thread::Threads;
use std::{io, thread};

const SESSION: [u8; 10] = *b"0000000001";

/// The symbol that each venue quotes. It quotes it alone, so that the symbol's notices are the same
/// whichever line's thread comes first.
const SYMBOLS: [[u8; 8]; 2] = [*b"ACME    ", *b"BOLT    "];

/// The bid and the offer in ten-thousandths of a dollar, and the size of both in shares.
type Quotation = (u32, u32, u32);

/// The quotations of each venue, by their messages' numbers, which begin with 1.
const QUOTATIONS: [[Quotation; 4]; 2] = [
    [
        (101_500, 101_700, 300),
        (101_400, 101_600, 300),
        (101_500, 101_800, 300),
        (101_300, 101_500, 100),
    ],
    [
        (250_100, 250_300, 1_000),
        (250_400, 250_500, 2_000),
        (250_200, 250_500, 500),
        (250_500, 250_600, 1_500),
    ],
];

/// The number of each venue's last message.
const LAST: u64 = 4;

/// The venue of each line, and the message that the line loses.
const LINES: [(usize, LineId, u64); 4] = [
    (0, LineId::A, 2),
    (0, LineId::B, 3),
    (1, LineId::A, 1),
    (1, LineId::B, 4),
];

/// A packet of one quotation.
fn datagram_of(
    alloc: Global,
    symbol: &[u8; 8],
    number: u64,
    quotation: Quotation,
) -> Result<Datagram, AllocError> {
    let (bid, offer, size) = quotation;
    let mut bytes = Vec::new(alloc);
    bytes.extend_from_slice(&SESSION)?;
    bytes.extend_from_slice(&number.to_be_bytes())?;
    bytes.extend_from_slice(&[0, 1, 0, 26, 0x51])?;
    bytes.extend_from_slice(symbol)?;
    bytes.extend_from_slice(&bid.to_be_bytes())?;
    bytes.extend_from_slice(&size.to_be_bytes())?;
    bytes.extend_from_slice(&offer.to_be_bytes())?;
    bytes.extend_from_slice(&size.to_be_bytes())?;
    bytes.extend_from_slice(&[3])?;
    Ok(Datagram::new(bytes))
}

/// A line whose datagrams are in memory.
#[derive(Drop)]
struct Recorded {
    place: VenueId,
    datagrams: VecDeque<Datagram>,
}

impl LineSource<Anything> for Recorded {
    ghost use Rattle.std.specs.Prelude.{refl, ◌≡◌, ◌++◌, map};
    ghost use Rattle.std.proofs.Common.{◌∙◌, ap, sym};
    ghost use Rattle.std.proofs.lemmas.List.{append_assoc};
    ghost use Rattle.live_feed.specs.venue.Datagrams.{bytes_of};

    ghost venue_of = { λ s. s.place };

    ghost failures = { λ s. 0 };

    // A source stays at its venue, and brings its datagrams in order, each once.
    ghost brings = { λ s brought t. (t.place ≡ s.place)
        × (map bytes_of s.datagrams.items ≡ brought ++ map bytes_of t.datagrams.items) };

    ghost brings_nothing = { λ s. (refl, refl) };

    ghost brings_more = { λ s t u xs ys a b. (
      b.0 ∙ a.0,
      a.1 ∙ ap (λ rest. xs ++ rest) b.1 ∙ sym (append_assoc xs ys (map bytes_of u.datagrams.items)),
    ) };

    fn venue(&self) -> VenueId {
        self.place
    }

    fn next(&mut self) -> Result<Option<Datagram>, SourceFault> {
        Ok(self.datagrams.pop_front())
    }

    fn now_ms(&mut self) -> u64 {
        0
    }

    /// There is nobody to ask.
    fn request(&mut self, _request: &Request) -> Result<(), SourceFault> {
        Ok(())
    }
}

/// The source of a line: all quotations of its venue but the one that it loses. None where memory
/// was refused.
fn source_of(alloc: Global, place: usize, lost: u64) -> Option<Recorded> {
    let mut datagrams = VecDeque::new(alloc);
    for (number, quotation) in (1..=LAST).zip(QUOTATIONS.get(place)?) {
        if number != lost {
            let datagram = datagram_of(alloc, SYMBOLS.get(place)?, number, *quotation).ok()?;
            datagrams.push_back(datagram).ok()?;
        }
    }
    Some(Recorded {
        place: VenueId::from_index(place)?,
        datagrams,
    })
}

/// The lines of both venues. None where memory was refused.
fn lines_of(alloc: Global) -> Option<Vec<LineTask<Recorded>>> {
    let mut lines = Vec::with_capacity(alloc, LINES.len()).ok()?;
    for (place, line, lost) in LINES {
        let source = source_of(alloc, place, lost)?;
        lines.push(LineTask { line, source }).ok()?;
    }
    Some(lines)
}

/// Buys what is offered at 10.1600 or less, at most 200 shares.
fn lift_offer(notice: &Notice) -> Advice
    ensures { IsAllowed (record { max_size = 200 }) notice.now result }
{
    match notice.national.offer {
        Some(offer) if offer.price <= 101_600 && offer.size > 0 => Advice::Buy {
            venue: offer.venue,
            price: offer.price,
            size: offer.size.min(200),
        },
        _ => Advice::Hold,
    }
}

/// Sells to who bids 25.0300 or more, at most 200 shares.
fn hit_bid(notice: &Notice) -> Advice
    ensures { IsAllowed (record { max_size = 200 }) notice.now result }
{
    match notice.national.bid {
        Some(bid) if bid.price >= 250_300 && bid.size > 0 => Advice::Sell {
            venue: bid.venue,
            price: bid.price,
            size: bid.size.min(200),
        },
        _ => Advice::Hold,
    }
}

/// Runs the feed, whose lanes N names, until all lines have ended, and settles it: each
/// subscriber's log, then what is left for it, are then what it wants of the journal. None where
/// memory was refused.
///
/// The closures are made where the feed is run: docs/LINKING.md says why.
fn run_feed<N, R>(rt: &R, alloc: Global, closed: LiveFeed<Anything>) -> Option<Settlement>
where
    N: FeedName + Send + Sync,
    R: Threads + Wait + Sync,
    requires { closed ≡ N.lanes }
    ensures { IfSome result (λ settlement. (id : ℕ) → IfSome (slice_get settlement.subscribers id)
        (λ end. IsServed settlement.journal id end.log end.queued end.unoffered)) }
{
    let buy = Box::new(
        alloc,
        |notice: &Notice| -> Advice
            requires { Unit {0} }
            ensures { IsAllowed (record { max_size = 200 }) notice.now result }
        { lift_offer(notice) },
    );
    let sell = Box::new(
        alloc,
        |notice: &Notice| -> Advice
            requires { Unit {0} }
            ensures { IsAllowed (record { max_size = 200 }) notice.now result }
        { hit_bid(notice) },
    );
    let buyer = Strategy::new(Limits { max_size: 200 }, buy.ok()?);
    let seller = Strategy::new(Limits { max_size: 200 }, sell.ok()?);
    let subscriptions = [
        Subscription {
            filter: Filter::of(Terms::Symbol(symbol_at(0)?)),
            strategy: buyer,
        },
        Subscription {
            filter: Filter::of(Terms::MinSize(1_000)),
            strategy: seller,
        },
    ];
    let task = FeedTask {
        lines: lines_of(alloc)?,
        attended: None,
        subscriptions: Vec::from_array(alloc, subscriptions).ok()?,
        rules: RunRules::default(),
    };
    let FeedEnd {
        outcome,
        attendant: _,
        watcher: _,
    } = closed.run_whole::<N, Recorded, Unattended, Unwatched, R>(
        rt, alloc, task, Unattended, Unwatched,
    );
    match outcome {
        Ok(report) => Some(report.settlement),
        Err(_) => None,
    }
}

/// How far a venue was whole after a notice, and the national best that this said.
#[derive(Clone, Copy)]
struct Look {
    front: u64,
    national: National,
}

/// An attendant that looks at the venue of each notice. It has a subscriber of its own, to which
/// all notices are offered.
#[derive(Drop)]
struct Observer {
    /// The last look at each venue.
    looks: [Option<Look>; 2],
}

impl Observer {
    /// Looks at the venue that leads the offers of the notice.
    fn look<N, W>(&mut self, rt: &W, run: &RunView<'_, Anything, N>, notice: &Notice)
    where
        N: FeedName,
        W: Wait,
    {
        let Some(offer) = notice.national.offer else {
            return;
        };
        let (venue, place) = (offer.venue, offer.venue.index());
        let Ok(status) = run.status(rt, venue) else {
            return;
        };
        let found = Look {
            front: status.cursors.front,
            national: notice.national,
        };
        if let Some(look) = self.looks.get_mut(place) {
            *look = Some(found);
        }
    }
}

impl<N: FeedName> Attendant<Anything, N, OwnLog<N>> for Observer {
    ghost use Rattle.std.specs.Prelude.{◌≡◌, is_some};

    // Its subscriber is there as before.
    ghost attends = { λ _ log _ later. is_some later ≡ is_some log };

    fn attend<R: Threads + Wait + Sync>(
        self,
        rt: &R,
        run: &RunView<'_, Anything, N>,
        log: OwnLog<N>,
    ) -> (Observer, OwnLog<N>) {
        let mut observer = self;
        let Some(mut log) = log else {
            return (observer, None);
        };
        for _ in rt.forever() {
            let Ok(Some(_)) = run.await_notice(rt, &mut log) else {
                break;
            };
            if let Some(logged) = log.log().last() {
                observer.look(rt, run, &logged.notice);
            }
        }
        (observer, Some(log))
    }
}

/// Runs the feed, whose lanes N names, until all lines have ended, with an attendant beside it, and
/// returns this. None where memory was refused.
fn observe_feed<N, R>(rt: &R, alloc: Global, closed: LiveFeed<Anything>) -> Option<Observer>
where
    N: FeedName + Send + Sync,
    R: Threads + Wait + Sync,
    requires { closed ≡ N.lanes }
{
    let own = Subscription {
        filter: Filter::of(Terms::All),
        strategy: Strategy::holding(),
    };
    let task = FeedTask {
        lines: lines_of(alloc)?,
        attended: Some(own),
        subscriptions: Vec::new(alloc),
        rules: RunRules::default(),
    };
    let observer = Observer { looks: [None; 2] };
    let end = closed.run_whole::<N, Recorded, Observer, Unwatched, R>(
        rt, alloc, task, observer, Unwatched,
    );
    Some(end.attendant)
}

/// The name of the symbol that the venue of this number quotes.
fn symbol_at(place: usize) -> Option<SymbolName> {
    SymbolName::from_field(SYMBOLS.get(place)?)
}

/// Makes the feed of both venues.
fn new_feed(alloc: Global) -> Option<LiveFeed<Anything>> {
    let config = FeedConfig {
        sessions: &[SESSION; 2],
        symbols: &[symbol_at(0)?, symbol_at(1)?],
        window: 64,
        lane: 64,
        journal: 1_000,
        log: 1_000,
    };
    LiveFeed::new(alloc, &config).ok()
}

/// Prints what the subscriber of this number was notified of, and what its strategy advised.
fn print_log(rt: &HostRuntime, settlement: &Settlement, place: u8) -> io::Result<()> {
    let Some(id) = SubscriberId::new(place) else {
        return Ok(());
    };
    if id.index() >= settlement.subscriber_count() {
        return Ok(());
    }
    for logged in settlement.log(id) {
        let (symbol, national) = (logged.notice.symbol, logged.notice.national);
        let (Some(bid), Some(offer)) = (national.bid, national.offer) else {
            continue;
        };
        let advice = logged.advice;
        println!(rt; "subscriber {id}, {symbol} bid {bid} offer {offer}: {advice}")?;
    }
    Ok(())
}

/// Prints what the last look at the venue of this number found, if there was one.
fn print_look(rt: &HostRuntime, place: usize, look: Option<Look>) -> io::Result<()> {
    let (Some(Look { front, national }), Some(symbol)) = (look, symbol_at(place)) else {
        return Ok(());
    };
    let (Some(bid), Some(offer)) = (national.bid, national.offer) else {
        return Ok(());
    };
    println!(rt; "beside the run: venue {place} at {front}, {symbol} bid {bid} offer {offer}")
}

/// Runs the feed of both venues, and settles it. None where memory was refused.
fn settled<R: Threads + Wait + Sync>(rt: &R, alloc: Global) -> Option<Settlement> {
    let closed = new_feed(alloc)?;
    run_feed::<Brand, R>(rt, alloc, closed)
}

/// Runs the feed of both venues again, with an attendant. None where memory was refused.
fn observed<R: Threads + Wait + Sync>(rt: &R, alloc: Global) -> Option<Observer> {
    let closed = new_feed(alloc)?;
    observe_feed::<Brand, R>(rt, alloc, closed)
}

/// Prints the logs of both subscribers.
fn print_settled(rt: &HostRuntime, settlement: &Settlement) -> io::Result<()> {
    print_log(rt, settlement, 0)?;
    print_log(rt, settlement, 1)
}

fn main(rt: HostRuntime) -> io::Result<()> {
    let alloc: Global = rt.alloc();
    match settled(&rt, alloc) {
        Some(settlement) => print_settled(&rt, &settlement)?,
        None => println!(rt; "no memory for the run")?,
    }
    let Some(observer) = observed(&rt, alloc) else {
        return println!(rt; "no memory for the second run");
    };
    for (place, look) in observer.looks.iter().enumerate() {
        print_look(&rt, place, *look)?;
    }
    Ok(())
}
