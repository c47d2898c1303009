//! Laws of the definitions.
ghost use Rattle.std.specs.Prelude.{◌≡◌, ◌%◌, ◌+◌, ℕ, List, map};
ghost use Rattle.std.specs.List.{AllByRecursion};
ghost use Rattle.packet_capture.specs.Captures.{IsCapture};
ghost use Rattle.packet_capture.specs.Datagrams.{CarriesDatagram};
ghost use Rattle.capture_writing.specs.Checksums.{checksum_of, datagram_checksum_of};
ghost use Rattle.capture_writing.specs.Frames.{TimedDatagram, FitsFrame, savefile_of, frame_read, frame_bytes, datagram_read};

use packet_capture::{frames_read_back, savefiles_read_back};

/// A capture that was written reads back: by `packet_capture`'s own definitions it is a capture of
/// the datagrams' frames, each at its time, and each frame carries its datagram, to its address and
/// port. The function does nothing: its contract is a law.
pub fn captures_read_back()
    ensures capture { (datagrams : List TimedDatagram) → AllByRecursion FitsFrame datagrams
        → IsCapture (savefile_of datagrams) (map frame_read datagrams) }
    ensures datagram { (d : TimedDatagram) → FitsFrame d
        → CarriesDatagram 1 (frame_bytes d.to d.bytes) (datagram_read d) }
{
    savefiles_read_back();
    frames_read_back();
}

/// A sum with its checksum is a multiple of 65535, as a receiver expects it, and the checksum of a
/// datagram isn't 0. The function does nothing: its contract is a law.
pub fn checksums_hold()
    ensures header { (sum : ℕ) → (sum + checksum_of sum) % 65535 ≡ 0 }
    ensures datagram { (sum : ℕ) → (sum + datagram_checksum_of sum) % 65535 ≡ 0 }
    ensures there { (sum : ℕ) → datagram_checksum_of sum ≡ 0 → ⊥ }
{}
