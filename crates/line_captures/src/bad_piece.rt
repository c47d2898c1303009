//! Why no piece of a packet capture is read.
ghost use Rattle.std.specs.Prelude.{◌≡◌};
ghost use Rattle.line_captures.specs.Starts.{start_of};

use packet_capture::CaptureFault;

/// Why no piece of a packet capture is read, and what stands in its place.
#[derive(Clone, Copy, Debug, PartialEq, Eq)]
pub struct BadPiece {
    pub fault: CaptureFault,
    /// The number of the first four bytes that stand there, the first of them the highest; 0 where
    /// there are fewer.
    pub start: u32,
}

/// Returns the number of the first four of these bytes, the first of them the highest; 0 where
/// there are fewer.
pub fn start_of(bytes: &[u8]) -> u32
    ensures { result ≡ start_of bytes.now }
{
    if bytes.len() < 4 {
        return 0;
    }
    u32::from_be_bytes([bytes[0], bytes[1], bytes[2], bytes[3]])
}

impl BadPiece {
    /// Returns this fault of a piece in whose place these bytes stand.
    pub fn new(fault: CaptureFault, bytes: &[u8]) -> BadPiece
        ensures { result ≡ record { fault = fault; start = start_of bytes.now } }
    {
        BadPiece {
            fault,
            start: start_of(bytes),
        }
    }
}
