//! What is said of a packet capture on standard error.
ghost use Rattle.text_out.specs.Members.{writing_of};
ghost use Rattle.std.specs.Prelude.{◌≡◌, ◌∷◌, [], codes, decimal};
ghost use Rattle.text_out.specs.StandardError.{SaysEach};
ghost use Rattle.nbbo_runs.specs.CaptureTexts.{bad_capture_texts, capture_fault_text, capture_outcome_texts, count_texts, datagrams_texts, dropped_texts, frame_texts, frames_texts, is_second, late_texts, lost_texts, no_line_texts, order_texts, other_texts, packed_at, protocols_texts, second_at, second_now, second_texts, start_texts};

use crate::ending::stop_line;
use crate::hints::{is_packets, packed_hint};
use event_sinks::ReplayStop;
use line_captures::{BadPiece, DroppedFrames, FrameCounts};
use packet_capture::CaptureFault;
use text_out::{TextOut, write_number, write_stderr};

/// The line beside the number of frames that are out of time order.
const IN_ORDER: &str =
    "nbbo: rows and figures by time need frames in order of time, which mergecap or reordercap makes\n";

/// Writes a line with a number.
fn write_counted<E: TextOut>(label: &str, count: u64, errors: &mut E)
    ensures { SaysEach (writing_of E.TextOut)
        (label.now ∷ decimal count ∷ codes "\n" ∷ []) errors.old errors.new }
{
    write_stderr(label, errors);
    write_number(count, errors);
    write_stderr("\n", errors);
}

/// Writes a line with a count, unless that is 0.
fn write_count<E: TextOut>(label: &str, count: u64, errors: &mut E)
    ensures { SaysEach (writing_of E.TextOut) (count_texts label.now count) errors.old errors.new }
{
    if count == 0 {
        return;
    }
    write_counted(label, count, errors);
}

/// Writes how many frames there are where not all go to lines.
fn write_frames<E: TextOut>(counts: &FrameCounts, errors: &mut E)
    ensures { SaysEach (writing_of E.TextOut) (frames_texts counts.now) errors.old errors.new }
{
    let all = counts.total();
    if all == counts.to_lines {
        return;
    }
    write_datagrams(all, counts, errors);
}

/// Writes how many frames there are, and how many of them carry whole datagrams.
fn write_datagrams<E: TextOut>(all: u64, counts: &FrameCounts, errors: &mut E)
    ensures { SaysEach (writing_of E.TextOut)
        (datagrams_texts all counts.now) errors.old errors.new }
{
    write_count("nbbo: frames in all: ", all, errors);
    write_count("nbbo: datagrams to lines: ", counts.to_lines, errors);
    write_count(
        "nbbo: datagrams to other addresses passed over: ",
        counts.elsewhere,
        errors,
    );
}

/// Writes how many frames carry another protocol.
pub(crate) fn write_protocols<E: TextOut>(counts: &FrameCounts, errors: &mut E)
    ensures { SaysEach (writing_of E.TextOut) (protocols_texts counts.now) errors.old errors.new }
{
    write_count(
        "nbbo: frames without IP passed over: ",
        counts.no_ip,
        errors,
    );
    write_count(
        "nbbo: IP packets without UDP passed over: ",
        counts.no_udp,
        errors,
    );
}

/// Writes what a line may have lost.
pub(crate) fn write_lost<E: TextOut>(counts: &FrameCounts, errors: &mut E)
    ensures { SaysEach (writing_of E.TextOut) (lost_texts counts.now) errors.old errors.new }
{
    write_count("nbbo: fragments passed over: ", counts.fragments, errors);
    write_count("nbbo: cut frames passed over: ", counts.cut, errors);
    write_count(
        "nbbo: malformed packets passed over: ",
        counts.malformed,
        errors,
    );
}

/// Writes what to do where frames are out of time order, as this many are.
fn write_order<E: TextOut>(disordered: u64, errors: &mut E)
    ensures { SaysEach (writing_of E.TextOut) (order_texts disordered) errors.old errors.new }
{
    if disordered == 0 {
        return;
    }
    write_stderr(IN_ORDER, errors);
}

/// Writes what else is to be known of the frames.
pub(crate) fn write_other<E: TextOut>(counts: &FrameCounts, errors: &mut E)
    ensures { SaysEach (writing_of E.TextOut) (other_texts counts.now) errors.old errors.new }
{
    write_count(
        "nbbo: frames that can't be read passed over: ",
        counts.not_read,
        errors,
    );
    write_count(
        "nbbo: frames out of time order: ",
        counts.disordered,
        errors,
    );
    write_order(counts.disordered, errors);
}

/// Writes the counts of the frames.
pub fn write_counts<E: TextOut>(counts: &FrameCounts, errors: &mut E)
    ensures { SaysEach (writing_of E.TextOut) (frame_texts counts.now) errors.old errors.new }
{
    write_frames(counts, errors);
    write_protocols(counts, errors);
    write_lost(counts, errors);
    write_other(counts, errors);
}

/// Writes how many frames were dropped before the capture, as it says itself.
pub fn write_dropped<E: TextOut>(dropped: &DroppedFrames, errors: &mut E)
    ensures { SaysEach (writing_of E.TextOut) (dropped_texts dropped.now) errors.old errors.new }
{
    write_count(
        "nbbo: frames that the capture says were dropped before packets: ",
        dropped.before_packets,
        errors,
    );
    write_count(
        "nbbo: frames that the capture says its interfaces dropped: ",
        dropped.by_interfaces,
        errors,
    );
    write_count(
        "nbbo: frames that the capture says its system dropped: ",
        dropped.by_system,
        errors,
    );
}

/// The end of the line about a capture that is bad.
fn capture_fault_end(fault: CaptureFault) -> &'static str
    ensures { result.now ≡ capture_fault_text fault }
{
    match fault {
        CaptureFault::NotCapture => ": 40, neither pcap nor pcapng\n",
        CaptureFault::UnknownVersion => ": 41, a version of pcap or pcapng that is not known\n",
        CaptureFault::TooLong => ": 42, a frame or a block of more than 1048576 bytes\n",
        CaptureFault::BadByteOrder => ": 43, a section that does not show its byte order\n",
        CaptureFault::BadBlockLength => {
            ": 44, a length of a block that is below 12 or no multiple of 4\n"
        }
        CaptureFault::LengthsDiffer => ": 45, two lengths of a block that differ\n",
        CaptureFault::ShortBlock => ": 46, a block that is too short for its fields\n",
        CaptureFault::UnknownInterface => ": 47, a packet of an interface that is not described\n",
        CaptureFault::FramePastBlock => ": 48, a frame that runs past its block\n",
        CaptureFault::OptionPastBlock => ": 49, an option that runs past its block\n",
        CaptureFault::TooManyInterfaces => ": 50, more than 256 interfaces in a section\n",
    }
}

/// Returns the line for a capture that is to be unpacked, by what stands where a piece is bad, if
/// that is the first one; else none.
fn packed_at(start: u32, position: u64) -> &'static str
    ensures { result.now ≡ packed_at start position }
{
    if position == 0 {
        packed_hint(start)
    } else {
        ""
    }
}

/// Writes at which byte a piece begins that is bad, why, and what to do where the capture is to be
/// unpacked.
fn write_bad_capture<E: TextOut>(bad: &BadPiece, position: u64, errors: &mut E)
    ensures { SaysEach (writing_of E.TextOut)
        (bad_capture_texts bad.now position) errors.old errors.new }
{
    write_stderr("nbbo: bad capture at byte ", errors);
    write_number(position, errors);
    write_stderr(capture_fault_end(bad.fault), errors);
    write_stderr(packed_at(bad.start, position), errors);
}

/// Writes that no datagram goes to a line, where none does.
fn write_no_line<E: TextOut>(to_lines: u64, errors: &mut E)
    ensures { SaysEach (writing_of E.TextOut) (no_line_texts to_lines) errors.old errors.new }
{
    if to_lines != 0 {
        return;
    }
    write_stderr("nbbo: no datagram goes to a line\n", errors);
}

/// Writes the line of an outcome, if it has one: of a capture whose next piece begins at this byte,
/// and of which this many datagrams go to a line.
pub fn write_outcome<E: TextOut>(
    outcome: &Result<(), ReplayStop<BadPiece>>,
    position: u64,
    to_lines: u64,
    errors: &mut E,
)
    ensures { SaysEach (writing_of E.TextOut)
        (capture_outcome_texts outcome.now position to_lines) errors.old errors.new }
{
    match outcome {
        Ok(()) => write_no_line(to_lines, errors),
        Err(ReplayStop::Bad(bad)) => write_bad_capture(bad, position, errors),
        Err(ReplayStop::Short) => write_counted("nbbo: short record at byte ", position, errors),
        Err(stop) => write_stderr(stop_line(stop), errors),
    }
}

/// Writes where a second capture seems to begin, if one does.
fn write_start<E: TextOut>(second_start: Option<u64>, errors: &mut E)
    ensures { SaysEach (writing_of E.TextOut) (start_texts second_start) errors.old errors.new }
{
    match second_start {
        None => {}
        Some(start) => write_counted(
            "nbbo: a second capture seems to begin at byte ",
            start,
            errors,
        ),
    }
}

/// Returns whether a second capture begins where a piece is bad: a capture starts so, and a piece
/// stands before it.
fn is_second(bad: &BadPiece, position: u64) -> bool
    ensures { result ≡ is_second bad.now position }
{
    is_packets(bad.start) && position != 0
}

/// Returns at which byte a second capture seems to begin, if one does: where one was seen, or where
/// this piece is bad.
fn second_at(second_start: Option<u64>, bad: &BadPiece, position: u64) -> Option<u64>
    ensures { result ≡ second_at second_start bad.now position }
{
    match second_start {
        Some(start) => Some(start),
        None => second_now(bad, position),
    }
}

/// Returns the byte at which this piece is bad, if a second capture begins there.
fn second_now(bad: &BadPiece, position: u64) -> Option<u64>
    ensures { result ≡ second_now bad.now position }
{
    if is_second(bad, position) {
        return Some(position);
    }
    None
}

/// Writes where a second capture seems to begin, of a capture that wasn't read to its end, and
/// whose next piece begins at this byte.
pub fn write_second<E: TextOut>(
    outcome: &Result<(), ReplayStop<BadPiece>>,
    second_start: Option<u64>,
    position: u64,
    errors: &mut E,
)
    ensures { SaysEach (writing_of E.TextOut)
        (second_texts outcome.now second_start position) errors.old errors.new }
{
    match outcome {
        Ok(()) => {}
        Err(ReplayStop::Bad(bad)) => write_start(second_at(second_start, bad, position), errors),
        Err(_) => write_start(second_start, errors),
    }
}

/// Writes how many frames came in a period before the earliest of those that were kept.
pub fn write_late<E: TextOut>(late: u64, errors: &mut E)
    ensures { SaysEach (writing_of E.TextOut) (late_texts late) errors.old errors.new }
{
    write_count(
        "nbbo: frames earlier than the 16 periods that are kept: ",
        late,
        errors,
    );
}
