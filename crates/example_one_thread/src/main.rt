//! An example of linking the crates, on one thread: one venue's two lines, the journal of the
//! national best, and a strategy that buys what is cheap. docs/LINKING.md goes through it.
#![tactic(auto)]

ghost use Rattle.filter_terms.specs.Allowed.{IsAllowed};

use feed_types::{Anything, LineId, Notice, SymbolName, VenueId};
use filter_terms::{Advice, Limits, Strategy};
use journal_book::Consolidator;
use line_arbiter::Arbiter;
use mold_packet::read_packet;
use std::alloc::{AllocError, Global};
use std::io;

const SESSION: [u8; 10] = *b"0000000001";

/// The highest price, in ten-thousandths of a dollar, at which the strategy buys.
const CHEAP: u32 = 101_600;

/// The most shares of one order.
const MAX_SIZE: u64 = 200;

/// A line, and of the datagram that it brings the message's number, bid and offer.
type Arrival = (LineId, u64, u32, u32);

/// The datagrams of both lines: line A loses message 2.
const ARRIVALS: [Arrival; 5] = [
    (LineId::A, 1, 101_500, 101_700),
    (LineId::B, 1, 101_500, 101_700),
    (LineId::A, 3, 101_500, 101_800),
    (LineId::B, 2, 101_400, 101_600),
    (LineId::B, 3, 101_500, 101_800),
];

/// A packet of one quotation of ACME, 300 shares on each side.
fn datagram_of(alloc: Global, number: u64, bid: u32, offer: u32) -> Result<Vec<u8>, AllocError> {
    let mut bytes = Vec::new(alloc);
    bytes.extend_from_slice(&SESSION)?;
    bytes.extend_from_slice(&number.to_be_bytes())?;
    bytes.extend_from_slice(&[0, 1, 0, 26, 0x51])?;
    bytes.extend_from_slice(b"ACME    ")?;
    bytes.extend_from_slice(&bid.to_be_bytes())?;
    bytes.extend_from_slice(&300_u32.to_be_bytes())?;
    bytes.extend_from_slice(&offer.to_be_bytes())?;
    bytes.extend_from_slice(&300_u32.to_be_bytes())?;
    bytes.extend_from_slice(&[3])?;
    Ok(bytes)
}

/// The width of the arbiter's window in messages.
const WINDOW: u32 = 64;

/// Buys from a cheap offer what it shows, within the limit.
fn advice_on(notice: &Notice) -> Advice
    ensures { IsAllowed (record { max_size = 200 }) notice.now result }
{
    let Some(offer) = notice.national.offer else {
        return Advice::Hold;
    };
    if offer.price > CHEAP || offer.size == 0 {
        return Advice::Hold;
    }
    Advice::Buy {
        venue: offer.venue,
        price: offer.price,
        size: offer.size.min(MAX_SIZE),
    }
}

/// The datagrams, each with its line.
fn datagrams(alloc: Global) -> Result<Vec<(LineId, Vec<u8>)>, AllocError> {
    let mut datagrams = Vec::new(alloc);
    for (line, number, bid, offer) in ARRIVALS {
        datagrams.push((line, datagram_of(alloc, number, bid, offer)?))?;
    }
    Ok(datagrams)
}

/// Prints what the strategy advises at a change of the national best.
fn print_advice(rt: &HostRuntime, change: u64, advice: Advice) -> io::Result<()> {
    println!(rt; "change {change}: {advice:?}")
}

fn main(rt: HostRuntime) -> io::Result<()> {
    let alloc: Global = rt.alloc();
    let datagrams = datagrams(alloc)?;
    let (Some(venue), Some(symbol)) = (VenueId::new(0), SymbolName::from_text(b"ACME")) else {
        return Ok(());
    };
    // Stored closures are made where they are used: no function hands one out. Nor is what holds
    // one, as the journal, handed to a function of another crate.
    let advise = Box::new(
        alloc,
        |notice: &Notice| -> Advice
            requires { Unit {0} }
            ensures { IsAllowed (record { max_size = 200 }) notice.now result }
        { advice_on(notice) },
    );
    let (Ok(advise), Ok(mut arbiter), Ok(mut journal)) = (
        advise,
        Arbiter::<Anything>::new(alloc, venue, SESSION, WINDOW),
        Consolidator::new(alloc, &[symbol], 1, 1_000),
    ) else {
        return println!(rt; "no memory");
    };
    let mut strategy = Strategy::new(Limits { max_size: MAX_SIZE }, advise);
    let mut asked = 0;
    for (line, datagram) in &datagrams {
        if let Ok(packet) = read_packet(datagram.as_slice()) {
            // A packet that is refused changes nothing.
            let _answer = arbiter.take(*line, &packet);
        }
        // After a packet there are at most a window of messages in sequence, and End.
        for _ in 0..=WINDOW {
            if venue.index() >= journal.venue_count() || journal.reserve_one().is_err() {
                break;
            }
            let Some(numbered) = arbiter.take_ready() else {
                break;
            };
            let _position = journal.record(venue, numbered);
        }
        for notice in journal.changes().get(asked..).unwrap_or(&[]) {
            print_advice(&rt, notice.number, strategy.advise(notice))?;
        }
        asked = journal.changes().len();
    }
    match arbiter.next_ready() {
        None => Ok(()),
        Some(numbered) => {
            let number = numbered.number;
            println!(rt; "there is no room in the journal for message {number}")
        }
    }
}
