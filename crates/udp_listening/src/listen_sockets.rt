//! The sockets of a program that listens.

use feed_types::{LineId, VenueId};
use line_recordings::{RecordSender, SkipRecords};
use socket_tables::SocketTables;
use std::net::{TcpListener, UdpSocket};

/// A line, and the socket that receives it.
#[derive(Drop)]
pub struct BoundLine {
    /// The venue, by its place in the settings.
    pub venue: VenueId,
    /// Which line of the venue it is: A and B are those of the settings, and what comes to the
    /// venue's request socket is line R.
    pub line: LineId,
    /// The socket.
    pub socket: UdpSocket,
    /// The venue's request socket, where it has one and this is another: its requests go from
    /// there. Else they go from the line's own socket.
    pub requests: Option<UdpSocket>,
    /// Where the line hands over what its venue took, if that is recorded.
    pub records: Option<RecordSender>,
}

/// The sockets of a program that listens.
#[derive(Drop)]
pub struct ListenSockets {
    /// Those that receive lines: of each venue those of its lines, and after these those of the
    /// venues' lines R.
    pub lines: Vec<BoundLine>,
    /// The one to which clients of the metrics connect, if there is one. It doesn't wait for them.
    pub metrics: Option<TcpListener>,
    /// The system's tables, by which it tells what it drops at the sockets of the lines.
    pub tables: SocketTables,
    /// Where the run hands over the skips of its venues, if they are recorded.
    pub skips: SkipRecords,
}
