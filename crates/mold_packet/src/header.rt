//! The header of 20 bytes, which requests have too: session, sequence number and count.

ghost use Rattle.std.specs.Prelude.{◌≡◌, ◌≤◌, ◌++◌, length, drop};
ghost use Rattle.mold_packet.specs.Header.{header, session_at, number_at, count_at};

/// The number of bytes of a downstream packet's header, and of a whole request.
pub const HEADER_LEN: usize = 20;

/// The count of a heartbeat.
pub(crate) const HEARTBEAT_COUNT: u16 = 0;

/// The count of an end of session.
pub const END_COUNT: u16 = 0xffff;

#[inline]
pub(crate) fn read_session(bytes: &[u8]) -> [u8; 10]
    requires { 20 ≤ length bytes.now }
    ensures { result ≡ session_at bytes.now }
{
    let mut session = [0; 10];
    session.copy_from_slice(&bytes[..10]);
    session
}

#[inline]
pub(crate) fn read_number(bytes: &[u8]) -> u64
    requires { 20 ≤ length bytes.now }
    ensures { result ≡ number_at bytes.now }
{
    u64::from_be_bytes([
        bytes[10], bytes[11], bytes[12], bytes[13], bytes[14], bytes[15], bytes[16], bytes[17],
    ])
}

#[inline]
pub(crate) fn read_count(bytes: &[u8]) -> u16
    requires { 20 ≤ length bytes.now }
    ensures { result ≡ count_at bytes.now }
{
    u16::from_be_bytes([bytes[18], bytes[19]])
}

/// Writes a header to the first 20 bytes of `out`, which has at least as many: the session's ten
/// bytes, the number of the first message, and how many messages follow.
pub fn write_header(session: &[u8; 10], number: u64, count: u16, out: &mut [u8])
    requires { 20 ≤ length out.old }
    ensures { out.new ≡ header session.now number count ++ drop 20 out.old }
{
    out[..10].copy_from_slice(session);
    out[10..18].copy_from_slice(&number.to_be_bytes());
    out[18..20].copy_from_slice(&count.to_be_bytes());
}
