//! The pieces of a packet capture, one after the other.
ghost use Rattle.std.specs.Prelude.{◌≡◌, ◌≤◌, ◌↔◌, Some, IfSome, IfNone, IfOk, IfErr, IsTrue, OnOk, OnErr, length};
ghost use Rattle.packet_capture.specs.Contents.{block_event_of};
ghost use Rattle.packet_capture.specs.Savefiles.{magic_at};
ghost use Rattle.packet_capture.specs.Captures.{new_context, frame_in_piece, frame_in_event, interfaces_after, IsOneTooMany, piece_of, IsPiece, IsRecordPiece, IsHeaderPiece, IsBlockPiece, StopsReading, StopsInSection};
ghost use Rattle.packet_capture.specs.Stops.{StopsInHeader, StopsInRecord};

use crate::block::{SECTION_HEADER, read_block, read_plain_block};
use crate::content::{BlockContent, read_content, read_enhanced};
use crate::drop_report::{DropReport, read_report};
use crate::fault::CaptureFault;
use crate::fields::{ByteOrder, read_u32};
use crate::frame::Frame;
use crate::interface::Interface;
use crate::savefile::{
    Magic, RECORD_HEADER, SAVEFILE_HEADER, Savefile, magic_at, read_record, read_savefile,
    whole_record,
};
use crate::stop::NoPiece;
use arrayvec::ArrayVec;
use std::marker::Model;

/// The most interfaces of a section.
const MAX_INTERFACES: usize = 256;

/// The format of a capture, as far as it was read.
#[derive(Clone, Copy, Debug, PartialEq, Eq)]
pub(crate) enum Format {
    /// Nothing was read yet.
    Start,
    /// A savefile.
    InSavefile(Savefile),
    /// A section of a pcapng file, with its numbers in this order.
    InSection(ByteOrder),
}

/// A piece of a capture: a header, a packet record or a block.
#[derive(Clone, Copy, Debug, PartialEq, Eq)]
pub struct Piece<'a> {
    /// Its frame, if it has one.
    pub frame: Option<Frame<'a>>,
    /// What it says of frames that were dropped.
    pub dropped: DropReport,
    /// Its length in bytes: 12 to 1,048,592, a packet record's 16 and its frame's.
    pub len: usize,
}

/// Updates the interfaces after a block, and returns its frame, if it has one. Where there would be
/// one too many, nothing changes.
#[inline(always)]
fn after_block<'a>(
    interfaces: &mut ArrayVec<Interface, MAX_INTERFACES>,
    content: BlockContent<'a>,
) -> Result<Option<Frame<'a>>, CaptureFault>
    requires { length interfaces.old.items ≤ 256 }
    ensures frame { IfOk result (λ f. frame_in_piece f ≡ frame_in_event
        (block_event_of content.entry)) }
    ensures items { OnOk result
        (interfaces.new.items
        ≡ interfaces_after interfaces.old.items (block_event_of content.entry)) }
    ensures few { OnOk result (length interfaces.new.items ≤ 256) }
    ensures full { IfErr result (IsOneTooMany interfaces.old.items (block_event_of content.entry)) }
    ensures kept { OnErr result (interfaces.new ≡ interfaces.old) }
{
    match content {
        BlockContent::Section => {
            interfaces.clear();
            Ok(None)
        }
        BlockContent::Interface(interface) => {
            if interfaces.is_full() {
                return Err(CaptureFault::TooManyInterfaces);
            }
            interfaces.push(interface);
            Ok(None)
        }
        BlockContent::Frame(frame) => Ok(Some(frame)),
        BlockContent::Other => Ok(None),
    }
}

/// Reads a packet capture, piece by piece. It keeps what a piece needs to know of the earlier ones,
/// and none of their bytes.
#[derive(Debug, Drop)]
pub struct CaptureReader {
    format: Format,
    interfaces: ArrayVec<Interface, MAX_INTERFACES>,
}

impl Model for CaptureReader {
    ghost use Rattle.packet_capture.specs.Captures.{Context};

    ghost Value = { Context };

    ghost view = { λ r. record { format = r.format; interfaces = r.interfaces.items } };
}

impl CaptureReader {
    /// Returns a reader that has read nothing.
    pub fn new() -> CaptureReader
        ensures { result ≡ new_context }
    {
        CaptureReader {
            format: Format::Start,
            interfaces: ArrayVec::new(),
        }
    }

    /// Returns whether no piece was read yet.
    pub fn is_at_start(&self) -> bool
        ensures { IsTrue result ↔ (self.now.format ≡ Format.Start) }
    {
        self.format == Format::Start
    }

    /// The header of a savefile of this magic.
    fn read_header<'a>(&mut self, magic: Magic, bytes: &'a [u8]) -> Result<Piece<'a>, NoPiece>
        requires there { 4 ≤ length bytes.now }
        requires magic { magic_at bytes.now ≡ Some magic }
        ensures piece { IfOk result (λ p. IsHeaderPiece bytes.now (piece_of p) self.new) }
        ensures stop { IfErr result (StopsInHeader bytes.now) }
        ensures kept { OnErr result (self.new ≡ self.old) }
    {
        match read_savefile(magic, bytes) {
            Ok(savefile) => {
                self.format = Format::InSavefile(savefile);
                self.interfaces.clear();
                Ok(Piece {
                    frame: None,
                    dropped: DropReport::Silent,
                    len: SAVEFILE_HEADER,
                })
            }
            Err(stop) => Err(stop),
        }
    }

    /// Reads the next packet record of the savefile.
    fn read_frame<'a>(&self, savefile: Savefile, bytes: &'a [u8]) -> Result<Piece<'a>, NoPiece>
        ensures piece { IfOk result (λ p.
            IsRecordPiece savefile self.now bytes.now (piece_of p) self.now) }
        ensures stop { IfErr result (StopsInRecord savefile bytes.now) }
    {
        match read_record(savefile, bytes) {
            Ok(frame) => Ok(Piece {
                frame: Some(frame),
                dropped: DropReport::Silent,
                len: RECORD_HEADER + frame.bytes.len(),
            }),
            Err(stop) => Err(stop),
        }
    }

    /// Reads the next packet record of the savefile where it is whole and no longer than is read.
    #[inline(always)]
    fn read_record<'a>(&self, savefile: Savefile, bytes: &'a [u8]) -> Option<Piece<'a>>
        ensures { IfSome result (λ p.
            IsRecordPiece savefile self.now bytes.now (piece_of p) self.now) }
    {
        let frame = whole_record(savefile, bytes)?;
        Some(Piece {
            frame: Some(frame),
            dropped: DropReport::Silent,
            len: RECORD_HEADER + frame.bytes.len(),
        })
    }

    /// Reads the first piece of a capture.
    fn read_first<'a>(&mut self, bytes: &'a [u8]) -> Result<Piece<'a>, NoPiece>
        requires { self.old.format ≡ Format.Start }
        ensures piece { IfOk result (λ p. IsPiece self.old bytes.now (piece_of p) self.new) }
        ensures stop { IfErr result (StopsReading self.old bytes.now) }
        ensures kept { OnErr result (self.new ≡ self.old) }
    {
        if bytes.len() < 4 {
            return Err(NoPiece::Wants(4));
        }
        if let Some(magic) = magic_at(bytes) {
            return self.read_header(magic, bytes);
        }
        if read_u32(ByteOrder::Big, bytes, 0) == SECTION_HEADER {
            return self.read_any(ByteOrder::Big, bytes);
        }
        Err(NoPiece::Bad(CaptureFault::NotCapture))
    }

    /// Returns the piece at the front of `bytes`, which begin where the last piece ended, and goes
    /// past it; or why none is read, and then nothing changes.
    ///
    /// A capture is a savefile or a pcapng file. A savefile has a header of 24 bytes and then
    /// packet records, a pcapng file blocks, of which those of other types are passed over.
    /// `NoPiece::Wants` is the number of bytes that have to be there to go on, at most 1,048,592;
    /// `NoPiece::Bad` the first fault that fits: `NotCapture`, `UnknownVersion` or `TooLong` of a
    /// savefile, `BadByteOrder`, `BadBlockLength`, `TooLong` and `LengthsDiffer` of any block, and
    /// then `ShortBlock`, `UnknownVersion`, `OptionPastBlock`, `TooManyInterfaces`,
    /// `UnknownInterface` and `FramePastBlock` of those that are read.
    ///
    /// The sources are draft-ietf-opsawg-pcap and draft-ietf-opsawg-pcapng. The limits of 1,048,576
    /// bytes and 256 interfaces are this project's.
    #[inline(always)]
    pub fn next_piece<'a>(&mut self, bytes: &'a [u8]) -> Result<Piece<'a>, NoPiece>
        ensures piece { IfOk result (λ p. IsPiece self.old bytes.now (piece_of p) self.new) }
        ensures stop { IfErr result (StopsReading self.old bytes.now) }
        ensures kept { OnErr result (self.new ≡ self.old) }
    {
        if let Some(piece) = self.next_packet(bytes) {
            return Ok(piece);
        }
        match self.format {
            Format::Start => self.read_first(bytes),
            Format::InSavefile(savefile) => self.read_frame(savefile, bytes),
            Format::InSection(order) => self.read_any(order, bytes),
        }
    }

    /// Returns the piece at the front where it is a whole packet record of a savefile, or a whole
    /// block of an enhanced packet with no fault and no option, as nearly all pieces are; the
    /// reader is past it already, since such a piece says nothing of the next one. Of any other
    /// bytes nothing is read, and [`next_piece`](Self::next_piece) says what they begin with.
    ///
    /// The numbers of the capture have their lowest byte first, as nearly all captures do, so that
    /// the order is known where they are read.
    #[inline(always)]
    pub fn next_packet<'a>(&self, bytes: &'a [u8]) -> Option<Piece<'a>>
        ensures { IfSome result (λ p. IsPiece self.now bytes.now (piece_of p) self.now) }
    {
        match self.format {
            Format::InSavefile(
                Savefile {
                    magic: Magic {
                        order: ByteOrder::Little,
                        nanoseconds,
                    },
                    link,
                },
            ) => {
                let magic = Magic {
                    order: ByteOrder::Little,
                    nanoseconds,
                };
                self.read_record(Savefile { magic, link }, bytes)
            }
            Format::InSection(ByteOrder::Little) => self.read_packet(ByteOrder::Little, bytes),
            _ => None,
        }
    }

    /// Reads the next block of a section of this order where it is a whole one of an enhanced
    /// packet with no fault and no option, as nearly all blocks are.
    #[inline(always)]
    fn read_packet<'a>(&self, section: ByteOrder, bytes: &'a [u8]) -> Option<Piece<'a>>
        requires { self.now.format ≡ Format.InSection section }
        ensures { IfSome result (λ p.
            IsBlockPiece section self.now bytes.now (piece_of p) self.now) }
    {
        let Some(block) = read_plain_block(section, bytes) else {
            return None;
        };
        match read_enhanced(self.interfaces.as_slice(), section, block) {
            Some(frame) => {
                Some(Piece {
                    frame: Some(frame),
                    dropped: DropReport::Silent,
                    len: block.len(),
                })
            }
            None => None,
        }
    }

    /// Reads the next block, of any kind, in a section of this order.
    fn read_any<'a>(&mut self, section: ByteOrder, bytes: &'a [u8]) -> Result<Piece<'a>, NoPiece>
        ensures piece { IfOk result (λ p.
            IsBlockPiece section self.old bytes.now (piece_of p) self.new) }
        ensures stop { IfErr result (StopsInSection section self.old bytes.now) }
        ensures kept { OnErr result (self.new ≡ self.old) }
    {
        let block = match read_block(section, bytes) {
            Ok(block) => block,
            Err(stop) => return Err(stop),
        };
        let content = match read_content(self.interfaces.as_slice(), block) {
            Ok(content) => content,
            Err(fault) => return Err(NoPiece::Bad(fault)),
        };
        match after_block(&mut self.interfaces, content) {
            Ok(frame) => {
                self.format = Format::InSection(block.order);
                Ok(Piece {
                    frame,
                    dropped: read_report(block.order, block.bytes),
                    len: block.bytes.len(),
                })
            }
            Err(fault) => Err(NoPiece::Bad(fault)),
        }
    }
}
