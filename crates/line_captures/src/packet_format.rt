//! Packet captures, of which the datagrams to some lines are records.
ghost use Rattle.std.specs.Prelude.{◌≡◌, ◌<◌, ℕ, [], ◌∷◌, IfNone, IfSome, Some, length};
ghost use Rattle.packet_capture.specs.Captures.{IsPiece, piece_of};
ghost use Rattle.packet_capture.specs.Datagrams.{CarriesDatagram, datagram_content};
ghost use Rattle.packet_capture.specs.Frames.{FrameContent, frame_of};
ghost use Rattle.capture_records.specs.Capture.{record_of};
ghost use Rattle.capture_records.specs.Formats.{CameOf, StepsTo};
ghost use Rattle.line_captures.specs.Counts.{CountsFrame, CountsPieces};
ghost use Rattle.line_captures.specs.DropCounts.{dropped_of};
ghost use Rattle.run_settings.specs.Lists.{AreOfVenues};
ghost use Rattle.line_captures.specs.Records.{AreOfFrame, IsOfLine};
ghost use Rattle.line_captures.specs.PacketFormats.{IsStepOf, IsStopStep, ReadsPackets, new_packets, packet_state, record_on_line, step_from, wants_packets, is_bad_packets, is_whole_packets};
ghost use Rattle.line_captures.specs.PacketFormatLaws.{packets_none, packets_more, packets_longer, packets_venues};

use crate::bad_piece::BadPiece;
use crate::captured_line::line_to;
use crate::drop_counts::DroppedFrames;
use crate::frame_counts::FrameCounts;
use crate::piece_step::{LineDatagram, PieceStep};
use crate::progress::Progress;
use capture_records::{RecordFormat, Step};
use packet_capture::{
    CaptureReader, Frame, NoPiece, Piece, UdpDatagram, read_as_bytes_come, read_datagram,
    read_plain_datagram,
};
use run_settings::CapturedLine;
use std::marker::Model;

/// A packet capture (pcap or pcapng), of which the datagrams to some lines are records, each at the
/// time of its frame. All frames are counted.
#[derive(Drop)]
pub struct PacketFormat<'a> {
    lines: &'a [CapturedLine],
    venues: usize,
    capture: CaptureReader,
    progress: Progress,
}

impl<'a> Model for PacketFormat<'a> {
    ghost use Rattle.run_settings.specs.Lists.{AreOfVenues};
    ghost use Rattle.line_captures.specs.PacketFormats.{PacketState};

    ghost Value = { PacketState };

    ghost view = { λ s. record {
      lines = s.lines.now;
      venues = s.venues;
      context = s.capture;
      progress = s.progress;
    } };

    ghost invariant = { λ s. AreOfVenues s.venues s.lines.now };
}

impl<'a> PacketFormat<'a> {
    /// A capture of which nothing was read, with lines of the first `venues` venues.
    pub fn new(lines: &'a [CapturedLine], venues: usize) -> PacketFormat<'a>
        requires { AreOfVenues venues lines.now }
        ensures { result ≡ new_packets venues lines.now }
    {
        PacketFormat {
            lines,
            venues,
            capture: CaptureReader::new(),
            progress: Progress::new(),
        }
    }

    /// Returns how many frames of the pieces that were read are of each kind.
    pub fn counts(&self) -> FrameCounts
        ensures { result ≡ self.now.progress.counts }
    {
        self.progress.counts
    }

    /// Returns how many frames were dropped, as the pieces that were read say.
    pub fn dropped(&self) -> DroppedFrames
        ensures { result ≡ dropped_of self.now.progress.drops }
    {
        self.progress.drops.dropped()
    }

    /// Returns at which byte of the capture the next piece begins, counted from 0.
    pub fn position(&self) -> u64
        ensures { result ≡ self.now.progress.position }
    {
        self.progress.position
    }

    /// Returns the latest time of a frame, 0 where none has one.
    pub fn latest_time(&self) -> u64
        ensures { result ≡ self.now.progress.latest_time }
    {
        self.progress.latest_time
    }

    /// Returns at which byte a second capture seems to begin, counted from 0, if one does: at the
    /// first record whose frame has no byte and had none on the wire, as the header of a savefile
    /// that follows another one.
    pub fn second_start(&self) -> Option<u64>
        ensures { result ≡ self.now.progress.second_start }
    {
        self.progress.second_start
    }
}

/// Returns a datagram as one of the line that it goes to, if it goes to one, and counts its frame.
#[inline(always)]
fn line_datagram<'b>(
    lines: &[CapturedLine],
    datagram: UdpDatagram<'b>,
    counts: &mut FrameCounts,
) -> Option<LineDatagram<'b>>
    requires { length datagram.bytes.now < 65536 }
    ensures some { (frame : FrameContent)
        → CarriesDatagram frame.link frame.bytes (datagram_content datagram.entry)
        → IfSome result (λ d. AreOfFrame lines.now frame (record_of (record_on_line d) ∷ [])) }
    ensures of_line { IfSome result (λ d. IsOfLine lines.now (record_of (record_on_line d))) }
    ensures none { (frame : FrameContent)
        → CarriesDatagram frame.link frame.bytes (datagram_content datagram.entry)
        → IfNone result (AreOfFrame lines.now frame []) }
    ensures counts { (frame : FrameContent)
        → CarriesDatagram frame.link frame.bytes (datagram_content datagram.entry)
        → CountsFrame lines.now frame counts.old counts.new }
{
    match line_to(lines, &datagram) {
        Some(line) => {
            counts.add_to_line();
            Some(LineDatagram {
                venue: line.venue,
                line: line.line,
                bytes: datagram.bytes,
            })
        }
        None => {
            counts.add_elsewhere();
            None
        }
    }
}

/// Returns the datagram that a frame carries to a line, if it carries one, and counts the frame.
fn datagram_in<'b>(
    lines: &[CapturedLine],
    frame: Frame<'b>,
    counts: &mut FrameCounts,
) -> Option<LineDatagram<'b>>
    ensures some { IfSome result (λ d.
        AreOfFrame lines.now (frame_of frame.entry) (record_of (record_on_line d) ∷ [])) }
    ensures of_line { IfSome result (λ d. IsOfLine lines.now (record_of (record_on_line d))) }
    ensures none { IfNone result (AreOfFrame lines.now (frame_of frame.entry) []) }
    ensures counts { CountsFrame lines.now (frame_of frame.entry) counts.old counts.new }
{
    match read_datagram(frame.link, frame.bytes) {
        Ok(datagram) => line_datagram(lines, datagram, counts),
        Err(fault) => {
            counts.add_fault(fault);
            None
        }
    }
}

/// Returns the step of a piece, and counts the piece.
fn step_of<'b>(lines: &[CapturedLine], piece: Piece<'b>, progress: &mut Progress) -> PieceStep<'b>
    ensures step { IsStepOf lines.now (piece_of piece.entry) (step_from result) }
    ensures counts { CountsPieces lines.now progress.old (piece_of piece.entry ∷ []) progress.new }
    ensures came { (venues : ℕ) → AreOfVenues venues lines.now
        → CameOf venues (step_from result) }
{
    let len = piece.len;
    progress.add_piece(&piece);
    let Some(frame) = piece.frame else {
        return PieceStep::Passed(len);
    };
    let time = frame.time;
    progress.add_time(time);
    match datagram_in(lines, frame, &mut progress.counts) {
        Some(datagram) => PieceStep::Came {
            len,
            venue: datagram.venue,
            line: datagram.line,
            bytes: datagram.bytes,
            time,
        },
        None => PieceStep::Passed(len),
    }
}

/// Returns the step where no piece is read at the front of these bytes.
fn step_at<'b>(stop: NoPiece, bytes: &[u8]) -> PieceStep<'b>
    ensures { IsStopStep stop bytes.now (step_from result) }
{
    match stop {
        NoPiece::Wants(_) => PieceStep::Wants,
        NoPiece::Bad(fault) => PieceStep::Bad(BadPiece::new(fault, bytes)),
    }
}

/// Returns the step at the front of some bytes, whatever they are, and counts the piece, if there
/// is one.
#[cold]
#[inline(never)]
fn any_step<'b>(
    capture: &mut CaptureReader,
    lines: &[CapturedLine],
    progress: &mut Progress,
    bytes: &'b [u8],
) -> PieceStep<'b>
    ensures steps { (venues : ℕ) → StepsTo ReadsPackets wants_packets is_bad_packets
        (packet_state venues lines.now capture.old progress.old) bytes.now (step_from result)
        (packet_state venues lines.now capture.new progress.new) }
    ensures came { (venues : ℕ) → AreOfVenues venues lines.now
        → CameOf venues (step_from result) }
{
    read_as_bytes_come();
    match capture.next_piece(bytes) {
        Ok(piece) => step_of(lines, piece, progress),
        Err(stop) => step_at(stop, bytes),
    }
}

/// A packet, its frame, and the datagram that the frame carries.
#[derive(Clone, Copy, Debug)]
struct PlainPacket<'a> {
    piece: Piece<'a>,
    frame: Frame<'a>,
    datagram: UdpDatagram<'a>,
}

/// Returns the packet at the front of some bytes where it carries a plain datagram, as nearly all
/// pieces of most captures do. The reader is past it already.
#[inline(always)]
fn plain_packet<'b>(capture: &CaptureReader, bytes: &'b [u8]) -> Option<PlainPacket<'b>>
    ensures piece { IfSome result (λ p.
        IsPiece capture.now bytes.now (piece_of p.piece) capture.now) }
    ensures framed { IfSome result (λ p. p.piece.frame ≡ Some p.frame) }
    ensures carried { IfSome result (λ p.
        CarriesDatagram p.frame.link p.frame.bytes.now (datagram_content p.datagram)) }
    ensures short { IfSome result (λ p. length p.datagram.bytes.now < 65536) }
{
    let piece = capture.next_packet(bytes)?;
    let frame = piece.frame?;
    let datagram = read_plain_datagram(frame.link, frame.bytes)?;
    Some(PlainPacket {
        piece,
        frame,
        datagram,
    })
}

/// Returns the step of a packet with a plain datagram, and counts the packet.
#[inline(always)]
fn plain_step<'b>(
    lines: &[CapturedLine],
    packet: PlainPacket<'b>,
    progress: &mut Progress,
) -> PieceStep<'b>
    requires framed { packet.piece.frame ≡ Some packet.frame }
    requires carried { CarriesDatagram packet.frame.link packet.frame.bytes.now
        (datagram_content packet.datagram) }
    requires short { length packet.datagram.bytes.now < 65536 }
    ensures step { IsStepOf lines.now (piece_of packet.entry.piece) (step_from result) }
    ensures counts { CountsPieces lines.now progress.old (piece_of packet.entry.piece ∷ [])
        progress.new }
    ensures came { (venues : ℕ) → AreOfVenues venues lines.now
        → CameOf venues (step_from result) }
{
    progress.add_piece(&packet.piece);
    progress.add_time(packet.frame.time);
    match line_datagram(lines, packet.datagram, &mut progress.counts) {
        Some(found) => PieceStep::Came {
            len: packet.piece.len,
            venue: found.venue,
            line: found.line,
            bytes: found.bytes,
            time: packet.frame.time,
        },
        None => PieceStep::Passed(packet.piece.len),
    }
}

/// Returns the step at the front of some bytes, as a replay takes it, and counts the piece, if
/// there is one. Packets with plain datagrams have a way of their own, in which the address is
/// known to be of IPv4; what the other way returns is taken apart.
#[inline(always)]
fn front_step<'b>(
    capture: &mut CaptureReader,
    lines: &[CapturedLine],
    progress: &mut Progress,
    bytes: &'b [u8],
) -> Step<'b, BadPiece>
    ensures steps { (venues : ℕ) → StepsTo ReadsPackets wants_packets is_bad_packets
        (packet_state venues lines.now capture.old progress.old) bytes.now result
        (packet_state venues lines.now capture.new progress.new) }
    ensures came { (venues : ℕ) → AreOfVenues venues lines.now → CameOf venues result }
{
    read_as_bytes_come();
    match plain_packet(capture, bytes) {
        Some(packet) => plain_step(lines, packet, progress).into_step(),
        None => any_step(capture, lines, progress, bytes)
            .apart()
            .into_step(),
    }
}

impl RecordFormat for PacketFormat<'_> {
    type Fault = BadPiece;

    ghost reads = { ReadsPackets };

    ghost wants = { wants_packets };

    ghost is_bad = { is_bad_packets };

    ghost is_whole = { is_whole_packets };

    ghost venues = { λ s. s.venues };

    ghost reads_none = { packets_none };

    ghost reads_more = { packets_more };

    ghost reads_longer = { packets_longer };

    ghost reads_venues = { packets_venues };

    #[inline(always)]
    fn next<'b>(&mut self, bytes: &'b [u8]) -> Step<'b, BadPiece> {
        front_step(&mut self.capture, self.lines, &mut self.progress, bytes)
    }

    fn may_end(&self) -> bool {
        !self.capture.is_at_start()
    }
}
