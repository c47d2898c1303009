//! Checksums of the Internet.
ghost use Rattle.std.specs.Prelude.{◌≡◌, ◌≤◌, ◌+◌, length};
ghost use Rattle.capture_writing.specs.Checksums.{words_sum, checksum_of, datagram_checksum_of};

/// Adds the words of some bytes to a sum, and a last byte as the higher one of a word.
pub(crate) fn add_words(before: u32, bytes: &[u8]) -> u32
    requires few { before ≤ 1048576 }
    requires len { length bytes.now ≤ 65507 }
    ensures { result ≡ before + words_sum bytes.now }
{
    let mut sum = before;
    let mut left = bytes;
    while let [high, low, rest @ ..] = left {
        sum += u32::from(*high) * 256 + u32::from(*low);
        left = rest;
    }
    if let [last] = left {
        sum += u32::from(*last) * 256;
    }
    sum
}

/// Returns the checksum of a header whose words have this sum.
pub(crate) fn checksum(sum: u32) -> u16
    ensures { result ≡ checksum_of sum }
{
    ((65535 - sum % 65535) % 65535) as u16
}

/// Returns the checksum of a datagram whose words have this sum: never 0.
pub(crate) fn datagram_checksum(sum: u32) -> u16
    ensures { result ≡ datagram_checksum_of sum }
{
    (65535 - sum % 65535) as u16
}
