//! The blocks of a pcapng file, whatever their content.
ghost use Rattle.std.specs.Prelude.{◌≡◌, ◌≤◌, IfSome, IfOk, IfErr, Some, true, ◌-◌, length, take};
ghost use Rattle.packet_capture.specs.Fields.{u32_in};
ghost use Rattle.packet_capture.specs.declared.fields.ByteOrder.{ByteOrder};
ghost use Rattle.packet_capture.specs.Blocks.{order_at, BeginsSection, IsBlockLen, IsBlock};
ghost use Rattle.packet_capture.specs.Contents.{HasNoOption};
ghost use Rattle.packet_capture.specs.Stops.{StopsInLen, StopsInBlock};

use crate::content::ENHANCED_PACKET;
use crate::fault::CaptureFault;
use crate::fields::{ByteOrder, read_u32};
use crate::savefile::LONGEST;
use crate::stop::NoPiece;

/// The number of bytes that show a block's order and length.
pub(crate) const BLOCK_FRONT: usize = 12;

/// The type of a section's header.
pub(crate) const SECTION_HEADER: u32 = 0x0a0d_0d0a;

/// The number by which a section's header shows the order of numbers.
const BYTE_ORDER_MAGIC: u32 = 0x1a2b_3c4d;

/// A whole block.
#[derive(Clone, Copy, Debug, PartialEq, Eq)]
pub(crate) struct Block<'a> {
    /// The order of its numbers.
    pub(crate) order: ByteOrder,
    /// All its bytes, with its type and both lengths.
    pub(crate) bytes: &'a [u8],
}

/// The order that the section's header at the front shows, or `None` where it shows none.
#[cold]
#[inline(never)]
fn order_in_header(bytes: &[u8]) -> Option<ByteOrder>
    requires there { 12 ≤ length bytes.now }
    requires begins { BeginsSection bytes.now }
    ensures { (section : ByteOrder) → result ≡ order_at section bytes.now }
{
    if read_u32(ByteOrder::Big, bytes, 8) == BYTE_ORDER_MAGIC {
        return Some(ByteOrder::Big);
    }
    if read_u32(ByteOrder::Little, bytes, 8) == BYTE_ORDER_MAGIC {
        return Some(ByteOrder::Little);
    }
    None
}

/// The order of the numbers of the block at the front, or `None` where it is a section's header
/// that doesn't show it.
#[inline(always)]
fn order_at(section: ByteOrder, bytes: &[u8]) -> Option<ByteOrder>
    requires { 12 ≤ length bytes.now }
    ensures { result ≡ order_at section bytes.now }
{
    if read_u32(ByteOrder::Big, bytes, 0) != SECTION_HEADER {
        return Some(section);
    }
    order_in_header(bytes)
}

/// The bytes of the block at the front, whose numbers are in this order.
#[inline(always)]
fn read_len(order: ByteOrder, bytes: &[u8]) -> Result<&[u8], NoPiece>
    requires { 12 ≤ length bytes.now }
    ensures counted { IfOk result (λ _. IsBlockLen (u32_in order bytes.now 4)) }
    ensures short { IfOk result (λ _. u32_in order bytes.now 4 ≤ 1048576) }
    ensures whole { IfOk result (λ _. u32_in order bytes.now 4 ≤ length bytes.now) }
    ensures again { IfOk result (λ _.
        u32_in order bytes.now (u32_in order bytes.now 4 - 4) ≡ u32_in order bytes.now 4) }
    ensures value { IfOk result (λ b. b.now ≡ take (u32_in order bytes.now 4) bytes.now) }
    ensures stop { IfErr result (StopsInLen order bytes.now) }
{
    let len = read_u32(order, bytes, 4);
    if len < 12 || len % 4 != 0 {
        return Err(NoPiece::Bad(CaptureFault::BadBlockLength));
    }
    if len > LONGEST {
        return Err(NoPiece::Bad(CaptureFault::TooLong));
    }
    let end = len as usize;
    if bytes.len() < end {
        return Err(NoPiece::Wants(end));
    }
    if read_u32(order, bytes, end - 4) != len {
        return Err(NoPiece::Bad(CaptureFault::LengthsDiffer));
    }
    Ok(&bytes[..end])
}

/// The number of bytes of an enhanced packet's block beside its frame.
const BESIDE_FRAME: usize = 32;

/// Whether no section's header is at the front, so that the order of the block's numbers is that of
/// the section.
#[inline(always)]
fn is_of_section(section: ByteOrder, bytes: &[u8]) -> bool
    requires { 12 ≤ length bytes.now }
    ensures { result ≡ true → order_at section bytes.now ≡ Some section }
{
    if read_u32(ByteOrder::Big, bytes, 0) == SECTION_HEADER {
        return false;
    }
    true
}

/// Returns the block at the front of bytes of a section where it is a whole one, of an enhanced
/// packet with no room for an option, as nearly all blocks are.
#[inline(always)]
pub(crate) fn read_plain_block(section: ByteOrder, bytes: &[u8]) -> Option<&[u8]>
    ensures block { IfSome result (λ b. IsBlock section bytes.now section b.now) }
    ensures room { IfSome result (λ b. HasNoOption section b.now) }
{
    // No section's header has this type, so that the third test takes no step.
    if bytes.len() < BLOCK_FRONT
        || read_u32(section, bytes, 0) != ENHANCED_PACKET
        || !is_of_section(section, bytes)
    {
        return None;
    }
    let len = read_u32(section, bytes, 4) as usize;
    if len < BESIDE_FRAME || len > LONGEST as usize || bytes.len() < len {
        return None;
    }
    let block = &bytes[..len];
    let frame = (read_u32(section, block, 20) as usize + 3) / 4 * 4;
    if len != BESIDE_FRAME + frame || read_u32(section, bytes, len - 4) as usize != len {
        return None;
    }
    Some(block)
}

/// Returns the block at the front, in a section of this order.
#[inline(always)]
pub(crate) fn read_block(section: ByteOrder, bytes: &[u8]) -> Result<Block<'_>, NoPiece>
    ensures block { IfOk result (λ b. IsBlock section bytes.now b.order b.bytes.now) }
    ensures stop { IfErr result (StopsInBlock section bytes.now) }
{
    if bytes.len() < BLOCK_FRONT {
        return Err(NoPiece::Wants(BLOCK_FRONT));
    }
    let Some(order) = order_at(section, bytes) else {
        return Err(NoPiece::Bad(CaptureFault::BadByteOrder));
    };
    match read_len(order, bytes) {
        Ok(block) => Ok(Block {
            order,
            bytes: block,
        }),
        Err(stop) => Err(stop),
    }
}
