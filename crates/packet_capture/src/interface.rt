//! Interfaces of a section, and the times of their packets.
ghost use Rattle.std.specs.Prelude.{◌≡◌, ◌≤◌, ◌<◌, ◌^◌, IfSome, IfNone, length};
ghost use Rattle.packet_capture.specs.Interfaces.{with_option, HaveOptions, HaveCutOption, Describes, HasCutOption, nanoseconds_of, seconds_ahead, seconds_behind, difference, time_of};
ghost use Rattle.packet_capture.specs.Options.{option_field_of, StandsThere};

use crate::fields::{ByteOrder, read_u16, read_u32, read_u64};

/// A section's interface, as far as it is described.
#[derive(Clone, Copy, Debug, Default, PartialEq, Eq, Hash)]
pub(crate) struct Interface {
    /// The number of the link type of its frames.
    pub(crate) link: u16,
    /// The most bytes of a frame that it captures, where 0 is all.
    pub(crate) snap_len: u32,
    /// The units of its times: a second has 10 to this power of them, or from 128 on 2 to the power
    /// of what is above 128.
    pub(crate) resolution: u8,
    /// The seconds to be added to its times, which are a signed number of 64 bits.
    pub(crate) offset: u64,
}

/// The front of a list of options.
#[derive(Clone, Copy, Debug, PartialEq, Eq)]
pub(crate) enum FrontOption<'a> {
    /// Nothing, or the end of the list.
    End,
    /// An option that runs past the bytes.
    Cut,
    /// An option's code and value, and what follows it.
    Found(u16, &'a [u8], &'a [u8]),
}

/// Reads the option at the front.
pub(crate) fn front_option(order: ByteOrder, bytes: &[u8]) -> FrontOption<'_>
    ensures { StandsThere order bytes.now result }
{
    if bytes.len() < 4 {
        return FrontOption::End;
    }
    let code = read_u16(order, bytes, 0);
    if code == 0 {
        return FrontOption::End;
    }
    let len = usize::from(read_u16(order, bytes, 2));
    if bytes.len() < 4 + len {
        return FrontOption::Cut;
    }
    let end = (4 + (len + 3) / 4 * 4).min(bytes.len());
    FrontOption::Found(code, &bytes[4..4 + len], &bytes[end..])
}

/// The interface with what one more option says.
fn with_option(order: ByteOrder, interface: Interface, code: u16, value: &[u8]) -> Interface
    ensures { result ≡ with_option order interface (option_field_of code value.now) }
{
    match (code, value) {
        (9, [resolution]) => Interface {
            resolution: *resolution,
            ..interface
        },
        (14, [_, _, _, _, _, _, _, _]) => Interface {
            offset: read_u64(order, value, 0),
            ..interface
        },
        _ => interface,
    }
}

/// The interface with what these options say, or `None` where one is cut.
fn with_options(order: ByteOrder, bare: Interface, bytes: &[u8]) -> Option<Interface>
    ensures found { IfSome result (λ i. HaveOptions order bytes.now bare i) }
    ensures cut { IfNone result (HaveCutOption order bytes.now) }
{
    let mut interface = bare;
    let mut rest = bytes;
    loop {
        match front_option(order, rest) {
            FrontOption::End => return Some(interface),
            FrontOption::Cut => return None,
            FrontOption::Found(code, value, after) => {
                interface = with_option(order, interface, code, value);
                rest = after;
            }
        }
    }
}

/// Returns the interface that a block describes, or `None` where one of its options is cut.
pub(crate) fn read_interface(order: ByteOrder, block: &[u8]) -> Option<Interface>
    requires { 20 ≤ length block.now }
    ensures found { IfSome result (Describes order block.now) }
    ensures cut { IfNone result (HasCutOption order block.now) }
{
    let bare = Interface {
        link: read_u16(order, block, 8),
        snap_len: read_u32(order, block, 12),
        resolution: 6,
        offset: 0,
    };
    with_options(order, bare, &block[16..block.len() - 4])
}

/// The number of units in a second where that is a power of ten.
#[tactic(auto, using(crate::proofs::Powers::tens_small, crate::proofs::Powers::tens_positive))]
fn tens(exponent: u8) -> u128
    requires { exponent ≤ 38 }
    ensures value { result ≡ 10 ^ exponent }
    ensures positive { 0 < result }
{
    10u128.pow(u32::from(exponent))
}

/// The whole nanoseconds of a number of units.
#[tactic(auto, using(crate::proofs::Powers::less_than_one))]
fn nanoseconds_of(ticks: u64, resolution: u8) -> u128
    ensures { result ≡ nanoseconds_of ticks resolution }
{
    let ticks = u128::from(ticks);
    match resolution {
        6 => ticks * 1_000,
        9 => ticks,
        0..=38 => ticks * 1_000_000_000 / tens(resolution),
        39..=127 => 0,
        _ => (ticks * 1_000_000_000) >> (resolution - 128),
    }
}

/// The number of seconds that an offset adds.
fn seconds_ahead(offset: u64) -> u64
    ensures { result ≡ seconds_ahead offset }
{
    if offset < 1 << 63 { offset } else { 0 }
}

/// The number of seconds that an offset takes away.
fn seconds_behind(offset: u64) -> u64
    ensures { result ≡ seconds_behind offset }
{
    if offset < 1 << 63 {
        0
    } else {
        u64::MAX - offset + 1
    }
}

/// The difference, where it is 0 to 2^64 - 1.
fn difference(a: u128, b: u128) -> Option<u64>
    ensures { result ≡ difference a b }
{
    if a < b || a - b > u128::from(u64::MAX) {
        return None;
    }
    Some((a - b) as u64)
}

/// Returns a time in the interface's units as nanoseconds from 1970 on, if they are 0 to 2^64 - 1.
#[inline(always)]
pub(crate) fn time_of(interface: &Interface, ticks: u64) -> Option<u64>
    ensures { result ≡ time_of interface.now ticks }
{
    if interface.offset == 0 && interface.resolution == 9 {
        return Some(ticks);
    }
    if interface.offset == 0 && interface.resolution == 6 && ticks <= u64::MAX / 1_000 {
        return Some(ticks * 1_000);
    }
    any_time_of(interface, ticks)
}

/// A time in any units, as nanoseconds from 1970 on, if they are 0 to 2^64 - 1.
#[inline(never)]
fn any_time_of(interface: &Interface, ticks: u64) -> Option<u64>
    ensures { result ≡ time_of interface.now ticks }
{
    let ahead = u128::from(seconds_ahead(interface.offset)) * 1_000_000_000;
    let behind = u128::from(seconds_behind(interface.offset)) * 1_000_000_000;
    difference(nanoseconds_of(ticks, interface.resolution) + ahead, behind)
}
