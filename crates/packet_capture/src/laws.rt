//! Laws of the definitions.
ghost use Rattle.std.specs.Prelude.{◌≡◌, ◌⊎◌, ◌<◌, ◌≤◌, ◌++◌, ◌^◌, ℕ, Bool, List, length, map};
ghost use Rattle.std.specs.List.{AllByRecursion};
ghost use Rattle.packet_capture.specs.declared.fault.CaptureFault.{CaptureFault};
ghost use Rattle.packet_capture.specs.declared.fault.FrameFault.{FrameFault};
ghost use Rattle.packet_capture.specs.declared.datagram.Address.TheVariants as addresses;
ghost use Rattle.packet_capture.specs.declared.stop.NoPiece.TheVariants.{Bad};
ghost use Rattle.packet_capture.specs.declared.fields.ByteOrder.{ByteOrder};
ghost use Rattle.packet_capture.specs.declared.stop.NoPiece.{NoPiece};
ghost use Rattle.packet_capture.specs.Datagrams.{DatagramContent, CarriesDatagram};
ghost use Rattle.packet_capture.specs.FrameFaults.{HasFrameFault};
ghost use Rattle.packet_capture.specs.Frames.{FrameContent};
ghost use Rattle.packet_capture.specs.Captures.{Context, PieceContent, IsPiece, StopsReading, IsCapture};
ghost use Rattle.packet_capture.specs.Written.{WrittenFrame, IsWrittenFrame, savefile_bytes, written_frame};
ghost use Rattle.packet_capture.specs.WrittenSections.{WrittenPacket, IsWrittenPacket, section_bytes, packet_frame};
ghost use Rattle.packet_capture.specs.WrittenFrames.{WrittenDatagram, WrittenIpv4, IsWrittenIpv4, ipv4_bytes, WrittenIpv6, IsWrittenIpv6, ipv6_bytes, Tag, ethernet_bytes, sent_to};

/// A frame carries one datagram and has no fault, or it has one fault: with
/// [`read_datagram`](crate::read_datagram), that one answer. The function does nothing: its
/// contract is a law.
pub fn one_datagram()
    ensures datagram { (link : ℕ) (frame : List ℕ) (d e : DatagramContent)
        → CarriesDatagram link frame d → CarriesDatagram link frame e → d ≡ e }
    ensures fault { (link : ℕ) (frame : List ℕ) (f g : FrameFault)
        → HasFrameFault link frame f → HasFrameFault link frame g → f ≡ g }
    ensures not_both { (link : ℕ) (frame : List ℕ) (d : DatagramContent) (f : FrameFault)
        → CarriesDatagram link frame d → HasFrameFault link frame f → ⊥ }
    ensures one { (link : ℕ) (frame : List ℕ)
        → ((d : DatagramContent) × CarriesDatagram link frame d)
        ⊎ ((f : FrameFault) × HasFrameFault link frame f) }
{}

/// Bytes begin with one piece and leave one context, or there is one reason why they don't: with
/// [`next_piece`](crate::CaptureReader::next_piece), that one answer. In a context are at most 256
/// interfaces. The function does nothing: its contract is a law.
pub fn told_once()
    ensures piece { (before a b : Context) (bytes : List ℕ) (p q : PieceContent)
        → IsPiece before bytes p a → IsPiece before bytes q b → (p ≡ q) × (a ≡ b) }
    ensures stop { (before : Context) (bytes : List ℕ) (s t : NoPiece)
        → StopsReading before bytes s → StopsReading before bytes t → s ≡ t }
    ensures not_both { (before after : Context) (bytes : List ℕ) (p : PieceContent) (s : NoPiece)
        → IsPiece before bytes p after → StopsReading before bytes s → ⊥ }
    ensures one { (before : Context) (bytes : List ℕ) → length before.interfaces ≤ 256
        → ((p : PieceContent) × (after : Context) × IsPiece before bytes p after)
        ⊎ ((s : NoPiece) × StopsReading before bytes s) }
{}

/// A capture has one reading: the same bytes have the same frames. The function does nothing: its
/// contract is a law.
pub fn one_reading()
    ensures { (bytes : List ℕ) (xs ys : List FrameContent)
        → IsCapture bytes xs → IsCapture bytes ys → xs ≡ ys }
{}

/// A savefile that was written reads back: in either byte order, with times in micro- or
/// nanoseconds, it is a capture of the frames that were written. The function does nothing: its
/// contract is a law.
pub fn savefiles_read_back()
    ensures { (order : ByteOrder) (nanoseconds : Bool) (longest link : ℕ)
        (frames : List WrittenFrame)
        → link < 65536 → AllByRecursion IsWrittenFrame frames
        → IsCapture (savefile_bytes order nanoseconds longest link frames)
        (map (written_frame nanoseconds link) frames) }
{}

/// A piece, or a fault, at the front of bytes stays what it is, whatever follows them. So a capture
/// may be read as its bytes come. The function does nothing: its contract is a law.
pub fn read_as_bytes_come()
    ensures piece { (before after : Context) (bytes more : List ℕ) (p : PieceContent)
        → IsPiece before bytes p after → IsPiece before (bytes ++ more) p after }
    ensures fault { (before : Context) (bytes more : List ℕ) (f : CaptureFault)
        → StopsReading before bytes (Bad f) → StopsReading before (bytes ++ more) (Bad f) }
{}

/// A datagram that was written into an Ethernet frame, with any number of VLAN tags, in a packet of
/// IPv4 with or without options or of IPv6, reads back, whatever fills the frame. The function does
/// nothing: its contract is a law.
pub fn frames_read_back()
    ensures ipv4 { (heads : List ℕ) (tags : List Tag) (packet : WrittenIpv4)
        (d : WrittenDatagram) (filling : List ℕ)
        → length heads ≡ 12 → IsWrittenIpv4 packet d
        → CarriesDatagram 1 (ethernet_bytes heads tags 2048 (ipv4_bytes packet d) filling)
        (sent_to (addresses.V4 packet.destination) d) }
    ensures ipv6 { (heads : List ℕ) (tags : List Tag) (packet : WrittenIpv6)
        (d : WrittenDatagram) (filling : List ℕ)
        → length heads ≡ 12 → IsWrittenIpv6 packet d
        → CarriesDatagram 1 (ethernet_bytes heads tags 34525 (ipv6_bytes packet d) filling)
        (sent_to (addresses.V6 packet.destination) d) }
{}

/// A section that was written reads back: in either byte order, with one interface, it is a capture
/// of the frames that were written. The function does nothing: its contract is a law.
pub fn sections_read_back()
    ensures { (order : ByteOrder) (link snap_len : ℕ) (packets : List WrittenPacket)
        → snap_len < 2 ^ 32 → AllByRecursion IsWrittenPacket packets
        → IsCapture (section_bytes order link snap_len packets)
        (map (packet_frame link snap_len) packets) }
{}
