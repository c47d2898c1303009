//! Savefiles, which tcpdump writes.
ghost use Rattle.std.specs.Prelude.{◌≡◌, ◌≤◌, ◌+◌, ◌*◌, IfSome, IfOk, IfErr, IsTrue, ◌↔◌, Some, length, if◌then◌else◌};
ghost use Rattle.packet_capture.specs.Savefiles.{magic_at, IsVersion, BeginsSavefile, HasOtherVersion, captured_at, record_time, IsPacketRecord};
ghost use Rattle.packet_capture.specs.Frames.{frame_of};
ghost use Rattle.packet_capture.specs.Stops.{StopsInHeader, StopsInRecord};

use crate::fault::CaptureFault;
use crate::fields::{ByteOrder, read_u16, read_u32};
use crate::frame::Frame;
use crate::stop::NoPiece;

/// The number of bytes of a savefile's header.
pub(crate) const SAVEFILE_HEADER: usize = 24;

/// The number of bytes before the frame of a packet record.
pub(crate) const RECORD_HEADER: usize = 16;

/// The most bytes of a frame or a block.
pub(crate) const LONGEST: u32 = 1_048_576;

/// The first four bytes of a savefile.
#[derive(Clone, Copy, Debug, PartialEq, Eq, Hash)]
pub(crate) struct Magic {
    pub(crate) order: ByteOrder,
    /// Whether times are in nanoseconds, or in microseconds.
    pub(crate) nanoseconds: bool,
}

/// A savefile, as far as its header describes it.
#[derive(Clone, Copy, Debug, PartialEq, Eq, Hash)]
pub(crate) struct Savefile {
    pub(crate) magic: Magic,
    /// The number of the link type of all its frames.
    pub(crate) link: u16,
}

/// The magic at the front, if there is one.
pub(crate) fn magic_at(bytes: &[u8]) -> Option<Magic>
    requires { 4 ≤ length bytes.now }
    ensures { result ≡ magic_at bytes.now }
{
    match read_u32(ByteOrder::Big, bytes, 0) {
        0xa1b2_c3d4 => return Some(Magic {
            order: ByteOrder::Big,
            nanoseconds: false,
        }),
        0xa1b2_3c4d => return Some(Magic {
            order: ByteOrder::Big,
            nanoseconds: true,
        }),
        _ => {}
    }
    match read_u32(ByteOrder::Little, bytes, 0) {
        0xa1b2_c3d4 => Some(Magic {
            order: ByteOrder::Little,
            nanoseconds: false,
        }),
        0xa1b2_3c4d => Some(Magic {
            order: ByteOrder::Little,
            nanoseconds: true,
        }),
        _ => None,
    }
}

fn is_version(magic: Magic, bytes: &[u8]) -> bool
    requires { 24 ≤ length bytes.now }
    ensures { IsTrue result ↔ IsVersion magic bytes.now }
{
    read_u16(magic.order, bytes, 4) == 2 && read_u16(magic.order, bytes, 6) == 4
}

/// Reads the savefile whose header, of this magic, is at the front.
pub(crate) fn read_savefile(magic: Magic, bytes: &[u8]) -> Result<Savefile, NoPiece>
    requires { Some magic ≡ magic_at bytes.now }
    ensures begins { IfOk result (BeginsSavefile bytes.now) }
    ensures stop { IfErr result (StopsInHeader bytes.now) }
{
    if bytes.len() < SAVEFILE_HEADER {
        return Err(NoPiece::Wants(SAVEFILE_HEADER));
    }
    if !is_version(magic, bytes) {
        return Err(NoPiece::Bad(CaptureFault::UnknownVersion));
    }
    let link = read_u32(magic.order, bytes, 20) % 65536;
    Ok(Savefile {
        magic,
        link: link as u16,
    })
}

/// The time of the packet record at the front.
fn record_time(savefile: Savefile, bytes: &[u8]) -> u64
    requires { 16 ≤ length bytes.now }
    ensures { result ≡ record_time savefile bytes.now }
{
    let unit = if savefile.magic.nanoseconds { 1 } else { 1_000 };
    let seconds = u64::from(read_u32(savefile.magic.order, bytes, 0));
    let parts = u64::from(read_u32(savefile.magic.order, bytes, 4));
    seconds * 1_000_000_000 + parts * unit
}

/// The frame of a packet record that ends at `end`, with all its bytes there.
#[inline(always)]
fn frame_up_to(savefile: Savefile, bytes: &[u8], end: usize) -> Frame<'_>
    requires there { 16 ≤ length bytes.now }
    requires short { captured_at savefile bytes.now ≤ 1048576 }
    requires end { end ≡ 16 + captured_at savefile bytes.now }
    requires whole { end ≤ length bytes.now }
    ensures { IsPacketRecord savefile bytes.now (frame_of result) }
{
    Frame {
        time: Some(record_time(savefile, bytes)),
        link: savefile.link,
        wire_len: read_u32(savefile.magic.order, bytes, 12),
        bytes: &bytes[RECORD_HEADER..end],
    }
}

/// Returns the frame of the packet record at the front, where that is whole and no longer than is
/// read.
#[inline(always)]
pub(crate) fn whole_record(savefile: Savefile, bytes: &[u8]) -> Option<Frame<'_>>
    ensures { IfSome result (λ f. IsPacketRecord savefile bytes.now (frame_of f)) }
{
    if bytes.len() < RECORD_HEADER {
        return None;
    }
    let captured = read_u32(savefile.magic.order, bytes, 8);
    if captured > LONGEST {
        return None;
    }
    let end = RECORD_HEADER + captured as usize;
    if bytes.len() < end {
        return None;
    }
    Some(frame_up_to(savefile, bytes, end))
}

/// Reads the frame of the packet record at the front.
pub(crate) fn read_record(savefile: Savefile, bytes: &[u8]) -> Result<Frame<'_>, NoPiece>
    ensures frame { IfOk result (λ f. IsPacketRecord savefile bytes.now (frame_of f)) }
    ensures stop { IfErr result (StopsInRecord savefile bytes.now) }
{
    if bytes.len() < RECORD_HEADER {
        return Err(NoPiece::Wants(RECORD_HEADER));
    }
    let captured = read_u32(savefile.magic.order, bytes, 8);
    if captured > LONGEST {
        return Err(NoPiece::Bad(CaptureFault::TooLong));
    }
    let end = RECORD_HEADER + captured as usize;
    if bytes.len() < end {
        return Err(NoPiece::Wants(end));
    }
    Ok(frame_up_to(savefile, bytes, end))
}
