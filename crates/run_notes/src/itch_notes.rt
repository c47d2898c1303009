//! What is said on standard error of venues in ITCH: which gaps were given up, and why a book has
//! failed.
ghost use Rattle.text_out.specs.Members.{writing_of};
ghost use Rattle.std.specs.Prelude.{◌≡◌};
ghost use Rattle.run_notes.specs.ItchNotes.{book_fault_text, book_fault_texts, unquoted_texts};
ghost use Rattle.text_out.specs.StandardError.{SaysEach};

use crate::named_gaps::write_named_venue;
use crate::venue_name::write_venue_name;
use event_sinks::{VenueGap, write_missing};
use feed_types::VenueId;
use itch_book::BookFault;
use run_settings::VenueNames;
use text_out::{TextOut, write_stderr};

/// Writes which messages of a venue were given up, and that nothing past them was quoted.
pub fn write_unquoted<E: TextOut>(names: &VenueNames, gap: &VenueGap, errors: &mut E)
    ensures { SaysEach (writing_of E.TextOut)
        (unquoted_texts names.now gap.now) errors.old errors.new }
{
    write_named_venue(names, gap.venue, errors);
    write_missing(gap.messages, errors);
    write_stderr(", and is quoted no more\n", errors);
}

/// The text of a fault of a venue's book.
fn book_fault_text(fault: BookFault) -> &'static str
    ensures { result.now ≡ book_fault_text fault }
{
    match fault {
        BookFault::TooManyOrders => " has more live orders than --orders\n",
        BookFault::TooManyShares => " would show more than 2^63 shares at a price\n",
        BookFault::TooManySymbols => " has too many symbols\n",
        BookFault::DuplicateSymbol => " has a symbol twice\n",
        BookFault::NoMemory => " has no memory for its orders\n",
    }
}

/// Writes why a venue's book has failed.
pub fn write_book_fault<E: TextOut>(
    names: &VenueNames,
    venue: VenueId,
    fault: BookFault,
    errors: &mut E,
)
    ensures { SaysEach (writing_of E.TextOut)
        (book_fault_texts names.now venue fault) errors.old errors.new }
{
    write_stderr("nbbo: venue ", errors);
    write_venue_name(names, venue, errors);
    write_stderr(book_fault_text(fault), errors);
}
