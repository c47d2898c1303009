//! The contents of the blocks of a pcapng file.
ghost use Rattle.std.specs.Prelude.{◌≡◌, ◌≤◌, ◌+◌, ◌⊎◌, Some, IfSome, IfOk, IfErr, OnOk, IsTrue, ◌↔◌, length, slice_get};
ghost use Rattle.packet_capture.specs.declared.drop_report.DropReport.TheVariants.{Silent};
ghost use Rattle.packet_capture.specs.Fields.{u32_in};
ghost use Rattle.packet_capture.specs.Frames.{frame_of};
ghost use Rattle.packet_capture.specs.DropReports.{report_of};
ghost use Rattle.packet_capture.specs.Contents.{kind_of, block_kind, fixed_len, IsPacketKind, IsSectionVersion, interface_in, wire_len_in, up_to_limit, captured_in, frame_start, time_in, frame_in, HasFrame, HasNoOption, BlockSays, block_event_of, HasBlockFault};

use crate::block::{Block, SECTION_HEADER};
use crate::fault::CaptureFault;
use crate::fields::{ByteOrder, read_u16, read_u32};
use crate::frame::Frame;
use crate::interface::{Interface, read_interface, time_of};

/// The kind of a block, by its type.
#[derive(Clone, Copy, Debug, PartialEq, Eq)]
pub(crate) enum BlockKind {
    /// The header of a section.
    SectionHeader,
    /// An interface.
    Description,
    /// A packet, with its interface and time.
    Enhanced,
    /// A packet, as older files have it, with its interface and time.
    Old,
    /// A packet of the first interface, with no time.
    Simple,
    /// Any other block, which is passed over.
    Unread,
}

/// The meaning of a block.
#[derive(Clone, Copy, Debug, PartialEq, Eq)]
pub(crate) enum BlockContent<'a> {
    /// A section begins, which has no interfaces yet.
    Section,
    /// The section has one more interface.
    Interface(Interface),
    /// A frame came.
    Frame(Frame<'a>),
    /// No content that is read.
    Other,
}

/// The type of an enhanced packet's block.
pub(crate) const ENHANCED_PACKET: u32 = 6;

#[inline(always)]
pub(crate) fn kind_of(block_type: u32) -> BlockKind
    ensures { result ≡ kind_of block_type }
{
    match block_type {
        SECTION_HEADER => BlockKind::SectionHeader,
        1 => BlockKind::Description,
        2 => BlockKind::Old,
        3 => BlockKind::Simple,
        ENHANCED_PACKET => BlockKind::Enhanced,
        _ => BlockKind::Unread,
    }
}

/// The least number of bytes of a block.
#[inline(always)]
fn fixed_len(kind: BlockKind) -> usize
    ensures value { result ≡ fixed_len kind }
    ensures least { 12 ≤ result }
{
    match kind {
        BlockKind::SectionHeader => 28,
        BlockKind::Description => 20,
        BlockKind::Enhanced | BlockKind::Old => 32,
        BlockKind::Simple => 16,
        BlockKind::Unread => 12,
    }
}

fn is_section_version(order: ByteOrder, block: &[u8]) -> bool
    requires { 28 ≤ length block.now }
    ensures { IsTrue result ↔ IsSectionVersion order block.now }
{
    let minor = read_u16(order, block, 14);
    read_u16(order, block, 12) == 1 && (minor == 0 || minor == 2)
}

/// The place of a packet's interface.
#[inline(always)]
fn interface_in(kind: BlockKind, order: ByteOrder, block: &[u8]) -> usize
    requires { fixed_len kind ≤ length block.now }
    ensures { result ≡ interface_in kind order block.now }
{
    match kind {
        BlockKind::Enhanced => read_u32(order, block, 8) as usize,
        BlockKind::Old => usize::from(read_u16(order, block, 8)),
        _ => 0,
    }
}

fn up_to_limit(snap_len: u32, len: u32) -> u32
    ensures { result ≡ up_to_limit snap_len len }
{
    if snap_len == 0 {
        len
    } else {
        len.min(snap_len)
    }
}

/// The number of bytes of a packet's frame that were captured.
#[inline(always)]
fn captured_in(kind: BlockKind, order: ByteOrder, interface: &Interface, block: &[u8]) -> u32
    requires { fixed_len kind ≤ length block.now }
    ensures { result ≡ captured_in kind order interface.now block.now }
{
    match kind {
        BlockKind::Enhanced | BlockKind::Old => read_u32(order, block, 20),
        BlockKind::Simple => up_to_limit(interface.snap_len, read_u32(order, block, 8)),
        _ => 0,
    }
}

#[inline(always)]
fn wire_len_in(kind: BlockKind, order: ByteOrder, block: &[u8]) -> u32
    requires { fixed_len kind ≤ length block.now }
    ensures { result ≡ wire_len_in kind order block.now }
{
    match kind {
        BlockKind::Enhanced | BlockKind::Old => read_u32(order, block, 24),
        BlockKind::Simple => read_u32(order, block, 8),
        _ => 0,
    }
}

#[inline(always)]
fn frame_start(kind: BlockKind) -> usize
    ensures value { result ≡ frame_start kind }
    ensures small { result + 4 ≤ fixed_len kind }
{
    match kind {
        BlockKind::Enhanced | BlockKind::Old => 28,
        BlockKind::Simple => 12,
        _ => 0,
    }
}

#[inline(always)]
fn time_in(kind: BlockKind, order: ByteOrder, interface: &Interface, block: &[u8]) -> Option<u64>
    requires { fixed_len kind ≤ length block.now }
    ensures { result ≡ time_in kind order interface.now block.now }
{
    match kind {
        BlockKind::Enhanced | BlockKind::Old => {
            let high = u64::from(read_u32(order, block, 12));
            let low = u64::from(read_u32(order, block, 16));
            time_of(interface, high * 0x1_0000_0000 + low)
        }
        _ => None,
    }
}

/// The frame of a packet's block.
#[inline(always)]
fn read_frame<'a>(
    kind: BlockKind,
    interfaces: &[Interface],
    order: ByteOrder,
    block: &'a [u8],
) -> Result<Frame<'a>, CaptureFault>
    requires least { 12 ≤ length block.now }
    requires kind { kind ≡ block_kind order block.now }
    requires is_packet { IsPacketKind kind }
    ensures frame { IfOk result (λ f. HasFrame interfaces.now order block.now (frame_of f)) }
    ensures there { OnOk result (fixed_len kind ≤ length block.now) }
    ensures fault { IfErr result (HasBlockFault interfaces.now order block.now) }
{
    if block.len() < fixed_len(kind) {
        return Err(CaptureFault::ShortBlock);
    }
    let Some(interface) = interfaces.get(interface_in(kind, order, block)) else {
        return Err(CaptureFault::UnknownInterface);
    };
    let captured = captured_in(kind, order, interface, block) as usize;
    if block.len() < fixed_len(kind) + captured {
        return Err(CaptureFault::FramePastBlock);
    }
    let start = frame_start(kind);
    Ok(Frame {
        time: time_in(kind, order, interface, block),
        link: interface.link,
        wire_len: wire_len_in(kind, order, block),
        bytes: &block[start..start + captured],
    })
}

/// Returns the meaning of a block in a section of these interfaces, or the first fault that fits:
/// `ShortBlock`, and then `UnknownVersion` of a section's header, `OptionPastBlock` of an
/// interface, `UnknownInterface` or `FramePastBlock` of a packet.
pub(crate) fn read_content<'a>(
    interfaces: &[Interface],
    block: Block<'a>,
) -> Result<BlockContent<'a>, CaptureFault>
    requires { 12 ≤ length block.bytes.now }
    ensures says { IfOk result (λ c.
        BlockSays interfaces.now block.entry.order block.entry.bytes.now (block_event_of c)) }
    ensures there { OnOk result (fixed_len (block_kind block.entry.order block.entry.bytes.now)
        ≤ length block.entry.bytes.now) }
    ensures fault { IfErr result
        (HasBlockFault interfaces.now block.entry.order block.entry.bytes.now) }
{
    let Block { order, bytes } = block;
    let kind = kind_of(read_u32(order, bytes, 0));
    match kind {
        BlockKind::Enhanced | BlockKind::Old | BlockKind::Simple => {
            match read_frame(kind, interfaces, order, bytes) {
                Ok(frame) => Ok(BlockContent::Frame(frame)),
                Err(fault) => Err(fault),
            }
        }
        _ if bytes.len() < fixed_len(kind) => Err(CaptureFault::ShortBlock),
        BlockKind::SectionHeader if is_section_version(order, bytes) => Ok(BlockContent::Section),
        BlockKind::SectionHeader => Err(CaptureFault::UnknownVersion),
        BlockKind::Description => match read_interface(order, bytes) {
            Some(interface) => Ok(BlockContent::Interface(interface)),
            None => Err(CaptureFault::OptionPastBlock),
        },
        BlockKind::Unread => Ok(BlockContent::Other),
    }
}

/// The frame of an enhanced packet's block with no room for an option, or `None` where its
/// interface isn't described.
#[inline(always)]
fn read_without_option<'a>(
    interfaces: &[Interface],
    order: ByteOrder,
    bytes: &'a [u8],
) -> Option<Frame<'a>>
    requires room { HasNoOption order bytes.now }
    requires kind { BlockKind.Enhanced ≡ block_kind order bytes.now }
    ensures frame { IfSome result (λ f. HasFrame interfaces.now order bytes.now (frame_of f)) }
    ensures silent { IfSome result (λ f. report_of order bytes.now ≡ Silent) }
{
    let interface = interfaces.get(interface_in(BlockKind::Enhanced, order, bytes))?;
    let captured = captured_in(BlockKind::Enhanced, order, interface, bytes) as usize;
    Some(Frame {
        time: time_in(BlockKind::Enhanced, order, interface, bytes),
        link: interface.link,
        wire_len: wire_len_in(BlockKind::Enhanced, order, bytes),
        bytes: &bytes[28..28 + captured],
    })
}

/// Returns the frame of an enhanced packet's block with no room for an option, or `None` where it
/// is another, or its interface isn't described.
#[inline(always)]
pub(crate) fn read_enhanced<'a>(
    interfaces: &[Interface],
    order: ByteOrder,
    block: &'a [u8],
) -> Option<Frame<'a>>
    requires { HasNoOption order block.now }
    ensures frame { IfSome result (λ f. HasFrame interfaces.now order block.now (frame_of f)) }
    ensures silent { IfSome result (λ f. report_of order block.now ≡ Silent) }
{
    match kind_of(read_u32(order, block, 0)) {
        BlockKind::Enhanced => read_without_option(interfaces, order, block),
        _ => None,
    }
}
