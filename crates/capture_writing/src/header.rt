//! The header of a savefile.
ghost use Rattle.std.specs.Prelude.{◌≡◌};
ghost use Rattle.capture_writing.specs.Frames as frames;

/// The number of bytes of the header.
pub const FILE_HEADER: usize = 24;

/// Returns the header of a savefile of Ethernet frames with times in nanoseconds, the lowest byte
/// of a number first: its magic, version 2.4, two numbers that are 0, the longest frame and the
/// link type.
pub fn file_header() -> [u8; FILE_HEADER]
    ensures { result ≡ frames.file_header }
{
    [
        0x4d, 0x3c, 0xb2, 0xa1, 2, 0, 4, 0, 0, 0, 0, 0, 0, 0, 0, 0, 0, 0, 4, 0, 1, 0, 0, 0,
    ]
}
