//! The order book of some symbols of a venue.

ghost use Rattle.std.specs.Prelude.{◌≡◌, ℕ, ◌*◌, ◌<◌, ◌≤◌, ◌++◌, [], ◌∷◌, All, List, IfOk, IfSome, IsTrue, MatchOption, OnErr, OnOk, Some, length, map, slice_index_or};
ghost use Rattle.feed_types.specs.Symbols.{key_of};
ghost use Rattle.itch_messages.specs.declared.event.OrderEvent.{OrderEvent};
ghost use Rattle.itch_book.specs.declared.order.Order.{Order};
ghost use Rattle.itch_book.specs.declared.row.SymbolRow.{SymbolRow};
ghost use Rattle.itch_book.specs.Bests.{depth};
ghost use Rattle.itch_book.specs.Books.{FitsEvents, FitsRow, TellsOfOne, session_orders_of};
ghost use Rattle.itch_book.specs.Inside.{Holds, IsSideShown, IsLotShown, IsHaltShown, unknown_row};
ghost use Rattle.itch_book.specs.Oddities.{oddities_after, placed_oddity};
ghost use Rattle.itch_book.specs.Orders.{book_side, brings_order, live_order, place_among, with_added};

use crate::fault::BookFault;
use crate::oddity::{NO_ODDITIES, Oddities};
use crate::order::{Order, book_rank};
use crate::orders::Orders;
use crate::row::SymbolRow;
use crate::step::Step;
use crate::symbol_places::SymbolPlaces;
use feed_types::{Item, Quote, Side, SymbolName};
use itch_messages::{HaltKind, NewOrder, OrderEvent};
use std::alloc::{AllocError, Global};
use std::marker::Model;

/// A round lot where no directory has another.
const USUAL_LOT: u32 = 100;

/// The live orders of some symbols of a venue, and of each symbol the quotation that they make, its
/// round lot and its halts. Contracts see the symbols' keys, the orders by their references, the
/// rows of the symbols, and the numbers of odd messages.
#[derive(Drop)]
pub struct OrderBook {
    places: SymbolPlaces,
    orders: Orders,
    rows: Vec<SymbolRow>,
    oddities: Oddities,
}

impl Model for OrderBook {
    ghost use Rattle.std.specs.Prelude.{◌≡◌, ◌*◌, ◌≤◌, length, All};
    ghost use Rattle.itch_book.specs.declared.row.SymbolRow.{SymbolRow};
    ghost use Rattle.itch_book.specs.Books.{OrderBookState};

    ghost Value = { OrderBookState };

    ghost view = { λ b. record {
      keys = b.places;
      table = b.orders.table;
      rows = b.rows.items;
      oddities = b.oddities;
    } };

    ghost invariant = { λ b. (length b.rows.items ≡ length b.places)
        × (length b.orders.sides ≡ length b.places * 2)
        × (length b.places ≤ 65536)
        × All (λ (row : SymbolRow). 1 ≤ row.lot) b.rows.items };
}

/// Returns the number of a symbol's side.
#[inline(always)]
fn side_number(place: u32, side: Side) -> u32
    requires { place ≤ 65535 }
    ensures { result ≡ book_side place side }
{
    match side {
        Side::Bid => place * 2,
        Side::Offer => place * 2 + 1,
    }
}

/// Adds an order, where its symbol is one of the book's.
#[inline(always)]
fn add_order(
    orders: &mut Orders,
    places: &mut SymbolPlaces,
    order: &NewOrder,
) -> Result<Step, BookFault>
    requires { length orders.old.sides ≡ length places.old * 2 }
    ensures orders { OnOk result ((all : List (ℕ × Order)) → Holds orders.old.table all
        → Holds orders.new.table
        (with_added (place_among places.old order.now.symbol) order.now all)) }
    ensures oddity { IfOk result (λ step. step.oddity
        ≡ placed_oddity (place_among places.old order.now.symbol)
        (live_order orders.old.table order.now.reference) order.now.shares) }
    ensures others { IfOk result (λ step. (side r : ℕ) → (step.side ≡ Some side → ⊥)
        → depth orders.new.table side r ≡ depth orders.old.table side r) }
    ensures within { IfOk result (λ step.
        IfSome step.side (λ side. side < length orders.old.sides)) }
    ensures sides { length orders.new.sides ≡ length orders.old.sides }
    ensures keys { places.new ≡ places.old }
{
    let Some(place) = places.place_of(order.symbol, order.locate) else {
        return Ok(Step {
            side: None,
            oddity: None,
        });
    };
    let side = side_number(place, order.side);
    let added = Order {
        side,
        rank: book_rank(side, order.price),
        shares: order.shares,
    };
    match orders.add(order.reference, added)? {
        None => Ok(Step {
            side: Some(side),
            oddity: None,
        }),
        Some(oddity) => Ok(Step {
            side: None,
            oddity: Some(oddity),
        }),
    }
}

/// Shows the best of a book side. Returns the quotation, where it differs then.
#[inline(always)]
fn show_side(orders: &Orders, rows: &mut [SymbolRow], side: u32) -> Item
    requires side { side < length orders.now.sides }
    requires rows { length orders.now.sides ≡ length rows.old * 2 }
    requires lots { All (λ row. 1 ≤ row.lot) rows.old }
    ensures shown { IsSideShown orders.now.table side rows.old rows.new }
    ensures told { TellsOfOne rows.old rows.new result }
    ensures lots { All (λ row. 1 ≤ row.lot) rows.new }
{
    let place = side as usize / 2;
    let best = orders.best(side, rows[place].lot);
    rows[place].show(side, &best)
}

/// Shows the bests that a round lot makes. Returns the quotation, where it differs then.
fn show_lot(orders: &Orders, rows: &mut [SymbolRow], place: u32, lot: u32) -> Item
    requires place { place < length rows.old }
    requires few { length rows.old ≤ 65536 }
    requires rows { length orders.now.sides ≡ length rows.old * 2 }
    requires lots { All (λ row. 1 ≤ row.lot) rows.old }
    requires lot { 1 ≤ lot }
    ensures shown { IsLotShown orders.now.table place lot rows.old rows.new }
    ensures told { TellsOfOne rows.old rows.new result }
    ensures lots { All (λ row. 1 ≤ row.lot) rows.new }
{
    let bid = orders.best(place * 2, lot);
    let offer = orders.best(place * 2 + 1, lot);
    rows[place as usize].show_lot(place, lot, &bid, &offer)
}

/// Takes another state of a kind of halt. Returns the halt or its end, where that differs then.
fn show_halt(rows: &mut [SymbolRow], place: u32, kind: HaltKind, halted: bool) -> Item
    requires place { place < length rows.old }
    requires lots { All (λ row. 1 ≤ row.lot) rows.old }
    ensures shown { IsHaltShown place kind halted rows.old rows.new }
    ensures told { TellsOfOne rows.old rows.new result }
    ensures lots { All (λ row. 1 ≤ row.lot) rows.new }
{
    rows[place as usize].show_halt(kind, halted)
}

/// Makes the rows of symbols of which nothing is known.
fn empty_rows(alloc: Global, symbols: &[SymbolName]) -> Result<Vec<SymbolRow>, AllocError>
    ensures { IfOk result (λ rows. rows.items ≡ map unknown_row symbols.now) }
{
    let mut rows = Vec::with_capacity(alloc, symbols.len())?;
    for symbol in symbols {
        rows.push(SymbolRow {
            quote: Quote {
                symbol: *symbol,
                bid_auto: true,
                offer_auto: true,
                bid_price: 0,
                bid_size: 0,
                offer_size: 0,
                offer_price: 0,
            },
            lot: USUAL_LOT,
            trading_halt: false,
            operational_halt: false,
        })?;
    }
    Ok(rows)
}

impl OrderBook {
    /// Makes the book of no message over these symbols, at most 65,536 and each once, with memory
    /// for `most_orders`, which is the most live orders that there may be.
    pub fn new(
        alloc: Global,
        symbols: &[SymbolName],
        most_orders: usize,
    ) -> Result<OrderBook, BookFault>
        ensures fits { IfOk result (λ book. FitsEvents book []) }
        ensures keys { IfOk result (λ book. book.keys ≡ map key_of symbols.now) }
    {
        let places = SymbolPlaces::new(alloc, symbols)?;
        let orders = Orders::new(alloc, symbols.len() * 2, most_orders)?;
        let rows = empty_rows(alloc, symbols)?;
        Ok(OrderBook {
            places,
            orders,
            rows,
            oddities: NO_ODDITIES,
        })
    }

    /// Counts what was odd about a message, and shows the best of the book side that it changed.
    /// Returns the quotation, where it differs then.
    #[inline(always)]
    fn finish(&mut self, step: &Step) -> Item
        requires { IfSome step.now.side (λ side. side < length self.old.keys * 2) }
        ensures shown { MatchOption step.now.side (self.new.rows ≡ self.old.rows)
            (λ side. IsSideShown self.old.table side self.old.rows self.new.rows) }
        ensures oddities { self.new.oddities
            ≡ oddities_after self.old.oddities step.now.oddity }
        ensures told { TellsOfOne self.old.rows self.new.rows result }
        ensures table { self.new.table ≡ self.old.table }
        ensures keys { self.new.keys ≡ self.old.keys }
    {
        self.oddities.count(step.oddity);
        match step.side {
            Some(side) => show_side(&self.orders, self.rows.as_mut_slice(), side),
            None => Item::Other,
        }
    }

    /// Takes a symbol's round lot.
    fn take_lot(&mut self, symbol: SymbolName, lot: u32, locate: u16) -> Item
        ensures fits { (events : List OrderEvent) → FitsEvents self.old events
            → FitsEvents self.new (events ++ OrderEvent.RoundLot symbol lot locate ∷ []) }
        ensures told { TellsOfOne self.old.rows self.new.rows result }
        ensures keys { self.new.keys ≡ self.old.keys }
    {
        if lot == 0 {
            return Item::Other;
        }
        match self.places.place_of(symbol, locate) {
            Some(place) => show_lot(&self.orders, self.rows.as_mut_slice(), place, lot),
            None => Item::Other,
        }
    }

    /// Takes a symbol's state of a kind of halt.
    fn take_halt(&mut self, symbol: SymbolName, kind: HaltKind, halted: bool, locate: u16) -> Item
        ensures fits { (events : List OrderEvent) → FitsEvents self.old events
            → FitsEvents self.new (events ++ OrderEvent.Halt symbol kind halted locate ∷ []) }
        ensures told { TellsOfOne self.old.rows self.new.rows result }
        ensures keys { self.new.keys ≡ self.old.keys }
    {
        match self.places.place_of(symbol, locate) {
            Some(place) => show_halt(self.rows.as_mut_slice(), place, kind, halted),
            None => Item::Other,
        }
    }

    /// Applies a message. Returns the quotation of a symbol that differs then, or the halt, or the
    /// end of one, or [`Item::Other`] where none does. Only a message that may bring an order in is
    /// refused: an order is one too many, a price would show too many shares, or memory is refused.
    #[inline(always)]
    pub fn apply(&mut self, event: &OrderEvent) -> Result<Item, BookFault>
        ensures fits { OnOk result ((events : List OrderEvent) → FitsEvents self.old events
            → FitsEvents self.new (events ++ event.now ∷ [])) }
        ensures told { IfOk result (λ item. TellsOfOne self.old.rows self.new.rows item) }
        ensures refused { OnErr result (IsTrue (brings_order event.now)) }
        ensures keys { self.new.keys ≡ self.old.keys }
    {
        match *event {
            OrderEvent::Add(order) => {
                let step = add_order(&mut self.orders, &mut self.places, &order)?;
                Ok(self.finish(&step))
            }
            OrderEvent::Reduce { reference, shares } => {
                let step = self.orders.take(reference, shares);
                Ok(self.finish(&step))
            }
            OrderEvent::Delete { reference } => {
                let step = self.orders.delete(reference);
                Ok(self.finish(&step))
            }
            OrderEvent::Replace(other) => {
                let step = self.orders.replace(&other)?;
                Ok(self.finish(&step))
            }
            OrderEvent::RoundLot {
                symbol,
                shares,
                locate,
            } => Ok(self.take_lot(symbol, shares, locate)),
            OrderEvent::Halt {
                symbol,
                kind,
                halted,
                locate,
            } => Ok(self.take_halt(symbol, kind, halted, locate)),
            OrderEvent::Other => Ok(Item::Other),
        }
    }

    /// Returns the number of the book's symbols, each of which has one row.
    #[inline(always)]
    pub fn symbol_count(&self) -> usize
        ensures keys { result ≡ length self.now.keys }
        ensures rows { result ≡ length self.now.rows }
    {
        self.rows.len()
    }

    /// Returns what the book shows of the symbol at a place: its quotation, with the best bid and
    /// offer of the orders that the messages leave.
    pub fn quote(&self, place: usize) -> Quote
        requires { place < length self.now.keys }
        ensures { (events : List OrderEvent) → FitsEvents self.now events
            → (row : SymbolRow) × (FitsRow self.now.keys events place row) × (result ≡ row.quote) }
    {
        self.rows[place].quote
    }

    /// Returns what the book keeps of the symbol at a place: its quotation, its round lot, and
    /// whether it is halted.
    pub fn row(&self, place: usize) -> SymbolRow
        requires { place < length self.now.keys }
        ensures { (d : SymbolRow) → result ≡ slice_index_or self.now.rows place d }
    {
        self.rows[place]
    }

    /// Returns the numbers of messages that changed no order, or took more than there was.
    pub fn oddities(&self) -> Oddities
        ensures { (events : List OrderEvent) → FitsEvents self.now events
            → result ≡ (session_orders_of self.now.keys events).oddities }
    {
        self.oddities
    }
}
