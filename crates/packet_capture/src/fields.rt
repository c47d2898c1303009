//! Numbers of several bytes, in either byte order.
ghost use Rattle.std.specs.Prelude.{◌≡◌, ◌+◌, ◌≤◌, length};
ghost use Rattle.packet_capture.specs.Fields.{u16_in, u32_in, u64_in};

/// The order of the bytes of a number.
#[derive(Clone, Copy, Debug, PartialEq, Eq, Hash)]
pub enum ByteOrder {
    /// The highest byte first, as in all network headers.
    Big,
    /// The lowest byte first.
    Little,
}

/// The number of the two bytes from `at` on.
#[inline(always)]
#[tactic(auto, unfolding(crate::specs::Fields::u16_in))]
pub(crate) fn read_u16(order: ByteOrder, bytes: &[u8], at: usize) -> u16
    requires { at + 2 ≤ length bytes.now }
    ensures { result ≡ u16_in order bytes.now at }
{
    match order {
        ByteOrder::Big => u16::from_be_bytes([bytes[at], bytes[at + 1]]),
        ByteOrder::Little => u16::from_le_bytes([bytes[at], bytes[at + 1]]),
    }
}

/// The number of the four bytes from `at` on.
#[inline(always)]
#[tactic(auto, unfolding(crate::specs::Fields::u16_in, crate::specs::Fields::u32_in))]
pub(crate) fn read_u32(order: ByteOrder, bytes: &[u8], at: usize) -> u32
    requires { at + 4 ≤ length bytes.now }
    ensures { result ≡ u32_in order bytes.now at }
{
    let field = [bytes[at], bytes[at + 1], bytes[at + 2], bytes[at + 3]];
    match order {
        ByteOrder::Big => u32::from_be_bytes(field),
        ByteOrder::Little => u32::from_le_bytes(field),
    }
}

/// The number of the eight bytes from `at` on.
#[tactic(auto, unfolding(crate::specs::Fields::u64_in))]
pub(crate) fn read_u64(order: ByteOrder, bytes: &[u8], at: usize) -> u64
    requires { at + 8 ≤ length bytes.now }
    ensures { result ≡ u64_in order bytes.now at }
{
    let front = u64::from(read_u32(order, bytes, at));
    let back = u64::from(read_u32(order, bytes, at + 4));
    match order {
        ByteOrder::Big => front * 0x1_0000_0000 + back,
        ByteOrder::Little => back * 0x1_0000_0000 + front,
    }
}
