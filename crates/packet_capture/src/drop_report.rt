//! What a capture itself says of frames that were dropped.
ghost use Rattle.std.specs.Prelude.{◌≡◌, ◌≤◌, ◌-◌, length, slice_range};
ghost use Rattle.packet_capture.specs.Contents.{block_kind, fixed_len};
ghost use Rattle.packet_capture.specs.DropReports.{before_frame, dropped_before, dropped_by_old, option_number, report_by, report_of, statistics_or_none};

use crate::content::{BlockKind, kind_of};
use crate::fields::{ByteOrder, read_u16, read_u32, read_u64};
use crate::interface::{FrontOption, front_option};

/// The type of a block of an interface's statistics.
const STATISTICS: u32 = 5;

/// What a piece of a capture says of frames that were dropped.
#[derive(Clone, Copy, Debug, PartialEq, Eq)]
pub enum DropReport {
    /// Nothing.
    Silent,
    /// A section begins, whose interfaces have said nothing yet.
    NewSection,
    /// This many frames, 1 or more, were dropped between this packet and the one before it.
    Before(u64),
    /// An interface of the section, by its place, and how many frames were dropped from the start
    /// of the capture on: by the interface, and by the system.
    Since(u32, u64, u64),
}

/// The number of the first option of a code that has eight bytes; 0 where no whole one has.
fn option_number(order: ByteOrder, code: u16, bytes: &[u8]) -> u64
    ensures { result ≡ option_number (length bytes.now) order code bytes.now }
{
    let mut rest = bytes;
    'options: loop {
        match front_option(order, rest) {
            FrontOption::End => return 0,
            FrontOption::Cut => return 0,
            FrontOption::Found(found, value, after) => {
                if found == code && value.len() == 8 {
                    return read_u64(order, value, 0);
                }
                rest = after;
            }
        }
    }
}

/// The options of a block from an offset on, up to its second length.
fn options_from(block: &[u8], start: usize) -> &[u8]
    requires { 4 ≤ length block.now }
    ensures { result.now ≡ slice_range block.now start (length block.now - 4) }
{
    let end = block.len() - 4;
    if start < end { &block[start..end] } else { &[] }
}

/// The number of frames that an enhanced packet says were dropped before it.
fn dropped_before(order: ByteOrder, block: &[u8]) -> u64
    requires { 32 ≤ length block.now }
    ensures { result ≡ dropped_before order block.now }
{
    let captured = read_u32(order, block, 20) as usize;
    option_number(order, 4, options_from(block, 28 + (captured + 3) / 4 * 4))
}

/// The number of frames that an old packet says were dropped before it.
fn dropped_by_old(order: ByteOrder, block: &[u8]) -> u64
    requires { 32 ≤ length block.now }
    ensures { result ≡ dropped_by_old order block.now }
{
    match read_u16(order, block, 10) {
        65_535 => 0,
        dropped => u64::from(dropped),
    }
}

fn before_frame(dropped: u64) -> DropReport
    ensures { result ≡ before_frame dropped }
{
    if dropped == 0 {
        DropReport::Silent
    } else {
        DropReport::Before(dropped)
    }
}

/// The report of an interface's statistics, if the block is theirs.
fn statistics_or_none(order: ByteOrder, block: &[u8]) -> DropReport
    requires { 12 ≤ length block.now }
    ensures { result ≡ statistics_or_none order block.now }
{
    if read_u32(order, block, 0) != STATISTICS || block.len() < 24 {
        return DropReport::Silent;
    }
    let options = options_from(block, 20);
    DropReport::Since(
        read_u32(order, block, 8),
        option_number(order, 5, options),
        option_number(order, 7, options),
    )
}

/// The report of a block of this kind.
fn report_by(kind: BlockKind, order: ByteOrder, block: &[u8]) -> DropReport
    requires least { 12 ≤ length block.now }
    requires there { fixed_len kind ≤ length block.now }
    ensures { result ≡ report_by kind order block.now }
{
    match kind {
        BlockKind::SectionHeader => DropReport::NewSection,
        BlockKind::Enhanced => before_frame(dropped_before(order, block)),
        BlockKind::Old => before_frame(dropped_by_old(order, block)),
        BlockKind::Description | BlockKind::Simple => DropReport::Silent,
        BlockKind::Unread => statistics_or_none(order, block),
    }
}

/// Returns what a block that has its fixed fields says of frames that were dropped.
pub(crate) fn read_report(order: ByteOrder, block: &[u8]) -> DropReport
    requires least { 12 ≤ length block.now }
    requires there { fixed_len (block_kind order block.now) ≤ length block.now }
    ensures { result ≡ report_of order block.now }
{
    report_by(kind_of(read_u32(order, block, 0)), order, block)
}
