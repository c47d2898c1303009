//! What is said on standard error at the end of a run of normalise.
ghost use Rattle.text_out.specs.Members.{writing_of};
ghost use Rattle.std.specs.Prelude.{◌≡◌, ◌++◌, [], Ok, flat_map};
ghost use Rattle.text_out.specs.StandardError.{SaysEach};
ghost use Rattle.run_notes.specs.ItchNotes.{unquoted_texts};
ghost use Rattle.run_settings.specs.declared.venue_names.VenueNames.TheVariants.{Numbers};
ghost use Rattle.nbbo_runs.specs.NormaliseReports.{begin_fault_texts, book_stop_texts, normalise_end_texts, normalise_texts, own_messages_texts, resume_fault_texts, standing_texts, venue_count_texts, venue_line_texts, venue_report_texts};

use crate::end_report::EndReport;
use event_sinks::{VenueGap, write_venue_gaps};
use feed_types::{MissingRange, VenueId};
use itch_book::BookFault;
use normalising::{NormaliseStop, Normalised, PacketCounts, VenueReport};
use run_notes::{write_book_fault, write_unquoted};
use run_settings::VenueNames;
use text_out::{TextOut, write_number, write_stderr};
use venue_normaliser::{NormaliserFault, ResumeFault};

/// Writes a text after the name of a venue.
fn write_line<E: TextOut>(venue: VenueId, text: &str, errors: &mut E)
    ensures { SaysEach (writing_of E.TextOut)
        (venue_line_texts venue text.now) errors.old errors.new }
{
    write_stderr("nbbo: venue ", errors);
    write_number(venue.index() as u64, errors);
    write_stderr(text, errors);
}

/// Writes the gaps that were given up.
fn write_gaps<E: TextOut>(gaps: &[VenueGap], errors: &mut E)
    ensures { SaysEach (writing_of E.TextOut)
        (flat_map (unquoted_texts Numbers) gaps.now) errors.old errors.new }
{
    for gap in gaps {
        write_unquoted(&VenueNames::Numbers, gap, errors);
    }
}

/// Writes which messages are missing of a venue, if any are.
fn write_standing<E: TextOut>(venue: VenueId, missing: Option<MissingRange>, errors: &mut E)
    ensures { SaysEach (writing_of E.TextOut) (standing_texts venue missing) errors.old errors.new }
{
    let Some(messages) = missing else {
        return;
    };
    write_venue_gaps(&[VenueGap { venue, messages }], errors);
}

/// Writes a count of a venue, unless it is 0.
fn write_venue_count<E: TextOut>(venue: VenueId, label: &str, count: u64, errors: &mut E)
    ensures { SaysEach (writing_of E.TextOut)
        (venue_count_texts venue label.now count) errors.old errors.new }
{
    if count == 0 {
        return;
    }
    write_line(venue, label, errors);
    write_number(count, errors);
    write_stderr("\n", errors);
}

/// Writes that a venue's packets begin with this project's own messages, where some do and none
/// with one of ITCH.
fn write_own_messages<E: TextOut>(venue: VenueId, counts: &PacketCounts, errors: &mut E)
    ensures { SaysEach (writing_of E.TextOut)
        (own_messages_texts venue counts.now) errors.old errors.new }
{
    if !counts.has_itch && counts.has_own {
        write_line(
            venue,
            " looks like own messages, which nbbo replay reads as they are\n",
            errors,
        );
    }
}

/// Writes what is reported of a venue.
fn write_report<E: TextOut>(report: &VenueReport, errors: &mut E)
    ensures { SaysEach (writing_of E.TextOut)
        (venue_report_texts report.now) errors.old errors.new }
{
    let (venue, counts) = (report.venue, &report.counts);
    write_standing(venue, report.missing, errors);
    write_venue_count(
        venue,
        ": datagrams that are no packet: ",
        counts.bad,
        errors,
    );
    write_venue_count(venue, ": packets refused: ", counts.refused, errors);
    write_own_messages(venue, counts, errors);
}

/// Writes the reports of the venues.
fn write_reports<E: TextOut>(reports: &[VenueReport], errors: &mut E)
    ensures { SaysEach (writing_of E.TextOut)
        (flat_map venue_report_texts reports.now) errors.old errors.new }
{
    for report in reports {
        write_report(report, errors);
    }
}

/// Writes why a book ended the run.
fn write_book_stop<E: TextOut>(venue: VenueId, fault: BookFault, errors: &mut E)
    ensures { SaysEach (writing_of E.TextOut) (book_stop_texts venue fault) errors.old errors.new }
{
    match fault {
        BookFault::NoMemory => write_stderr("nbbo: no memory\n", errors),
        BookFault::TooManyOrders
        | BookFault::TooManyShares
        | BookFault::TooManySymbols
        | BookFault::DuplicateSymbol => {
            write_book_fault(&VenueNames::Numbers, venue, fault, errors)
        }
    }
}

/// Writes why a run wasn't begun.
fn write_fault<E: TextOut>(fault: NormaliserFault, errors: &mut E)
    ensures { SaysEach (writing_of E.TextOut) (begin_fault_texts fault) errors.old errors.new }
{
    match fault {
        NormaliserFault::BadWindow => write_stderr("nbbo: bad window\n", errors),
        NormaliserFault::Book(fault) => write_book_stop(VenueId::at(0), fault, errors),
    }
}

/// Writes why a venue's session doesn't begin with its snapshot.
fn write_resume_fault<E: TextOut>(venue: VenueId, fault: ResumeFault, errors: &mut E)
    ensures { SaysEach (writing_of E.TextOut)
        (resume_fault_texts venue fault) errors.old errors.new }
{
    match fault {
        ResumeFault::Book(fault) => write_book_stop(venue, fault, errors),
        ResumeFault::TooFewNumbers => write_line(
            venue,
            ": its snapshot shows more than the messages before its number can\n",
            errors,
        ),
        ResumeFault::HasBegun => write_line(venue, ": its session has begun\n", errors),
    }
}

/// Writes what is to be said of what was read, and why a book ended the run.
#[tactic(auto, using(text_out::specs::laws::SaidTexts::says_each))]
fn write_book_end<F: EndReport, E: TextOut>(
    format: &F,
    venue: VenueId,
    fault: BookFault,
    errors: &mut E,
)
    ensures { SaysEach (writing_of E.TextOut)
        (F.end_texts format.now [] (Ok tt) ++ book_stop_texts venue fault)
        errors.old errors.new }
{
    format.write_end_report(&[], &Ok(()), errors);
    write_book_stop(venue, fault, errors);
}

/// Writes what is to be said of an outcome, and of what was read.
fn write_end<F: EndReport, E: TextOut>(
    format: &F,
    outcome: &Result<(), NormaliseStop<F::Fault>>,
    errors: &mut E,
)
    ensures { SaysEach (writing_of E.TextOut)
        (normalise_end_texts F.end_texts format.now outcome.now) errors.old errors.new }
{
    match outcome {
        Ok(()) => format.write_end_report(&[], &Ok(()), errors),
        Err(NormaliseStop::Replay(stop)) => format.write_end_report(&[], &Err(*stop), errors),
        Err(NormaliseStop::Fault(fault)) => write_fault(*fault, errors),
        Err(NormaliseStop::Snapshot(venue, fault)) => write_resume_fault(*venue, *fault, errors),
        Err(NormaliseStop::Book(venue, fault)) => write_book_end(format, *venue, *fault, errors),
    }
}

/// Writes the gaps that were given up, the reports of the venues, and why the run ended.
pub(crate) fn write_run<F: EndReport, E: TextOut>(
    format: &F,
    run: &Normalised<F::Fault>,
    errors: &mut E,
)
    ensures { SaysEach (writing_of E.TextOut)
        (normalise_texts F.end_texts format.now run.now.given_up.items run.now.reports.items
        run.now.outcome) errors.old errors.new }
{
    write_gaps(run.given_up.as_slice(), errors);
    write_reports(run.reports.as_slice(), errors);
    write_end(format, &run.outcome, errors);
}
