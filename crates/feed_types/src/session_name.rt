//! Names of sessions.
ghost use Rattle.std.specs.Prelude.{◌≡◌, ◌≢◌, MatchBool};

/// The name of a session: ten bytes, filled on the right with spaces.
pub type SessionName = [u8; 10];

/// Whether two names are the same.
// Their first eight bytes are compared as one word, and the last two: as ten bytes they were moved
// one by one, which took some 36 instructions a datagram.
#[inline(always)]
pub fn is_same_name(one: &SessionName, other: &SessionName) -> bool
    ensures { MatchBool result (one.now ≡ other.now) (one.now ≢ other.now) }
{
    let [a, b, c, d, e, f, g, h, i, j] = *one;
    let [k, l, m, n, o, p, q, r, s, t] = *other;
    u64::from_be_bytes([a, b, c, d, e, f, g, h]) == u64::from_be_bytes([k, l, m, n, o, p, q, r])
        && u16::from_be_bytes([i, j]) == u16::from_be_bytes([s, t])
}
