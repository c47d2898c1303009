//! Numbers of several bytes.
ghost use Rattle.std.specs.Prelude.{◌≡◌};
ghost use Rattle.packet_capture.specs.declared.fields.ByteOrder.TheVariants.{Big, Little};
ghost use Rattle.packet_capture.specs.Written.{u16_bytes, u32_bytes};

/// Returns a number of two bytes as packets have it, the higher byte first.
#[inline(always)]
pub(crate) fn packet_u16(number: u16) -> [u8; 2]
    ensures { result ≡ u16_bytes Big number }
{
    [(number / 256) as u8, (number % 256) as u8]
}

/// Returns a number of two bytes as the savefile has it, the lower byte first.
#[inline(always)]
pub(crate) fn file_u16(number: u16) -> [u8; 2]
    ensures { result ≡ u16_bytes Little number }
{
    [(number % 256) as u8, (number / 256) as u8]
}

/// Returns a number of four bytes as the savefile has it, the lowest byte first.
#[inline(always)]
pub(crate) fn file_u32(number: u32) -> [u8; 4]
    ensures { result ≡ u32_bytes Little number }
{
    let [a, b] = file_u16((number % 65536) as u16);
    let [c, d] = file_u16((number / 65536) as u16);
    [a, b, c, d]
}
