//! The sockets of live lines.
ghost use Rattle.std.specs.Prelude.{◌≡◌, ◌<◌, ◌∷◌, [], ◌++◌, IfOk, OnOk, Some, false, map, slice_get, vec_len};
ghost use Rattle.text_out.specs.Members.{writing_of};
ghost use Rattle.text_out.specs.StandardError.{Says};
ghost use Rattle.udp_listening.specs.Bound.{AddsReplies, AreBoundFor, asked_line, asked_lines, bound_line, reply_line};
ghost use Rattle.udp_listening.specs.Sockets.{bind_fault_text};

use crate::group_socket::open_shared;
use crate::listen::NO_MEMORY;
use crate::listen_sockets::BoundLine;
use crate::sources::line_at;
use feed_types::{LineId, VenueId};
use run_settings::ListenSettings;
use std::alloc::{AllocError, Global};
use std::fmt;
use std::fmt::{Display, Formatter};
use std::io::ErrorKind;
use std::net::{Ipv4Addr, Ipv6Addr, Net, SocketAddr, UdpSocket};
use text_out::{TextOut, write_stderr};

/// Why the system refuses an address.
#[derive(Clone, Copy, Debug, PartialEq, Eq)]
pub enum BindRefusal {
    /// Another program has it, or an earlier line.
    InUse,
    /// No interface of this machine has it.
    NotLocal,
    /// This user may not have it, as a port below 1024.
    NotAllowed,
    /// For another reason, as where the machine hasn't the address's version of IP.
    Other,
}

impl Display for BindRefusal {
    fn fmt<W: fmt::Write>(&self, f: &mut Formatter<W>) -> fmt::Result {
        f.write_str(match self {
            BindRefusal::InUse => "in use",
            BindRefusal::NotLocal => "no address of this machine",
            BindRefusal::NotAllowed => "not allowed",
            BindRefusal::Other => "the system refuses it",
        })
    }
}

/// Returns why the system refuses an address with an error of this kind.
pub fn refusal_of(kind: ErrorKind) -> BindRefusal {
    match kind {
        ErrorKind::AddrInUse => BindRefusal::InUse,
        ErrorKind::AddrNotAvailable => BindRefusal::NotLocal,
        ErrorKind::PermissionDenied => BindRefusal::NotAllowed,
        _ => BindRefusal::Other,
    }
}

/// Why no socket was opened for a line.
#[derive(Clone, Copy, Debug, PartialEq, Eq)]
pub enum BindFault {
    /// Memory was refused.
    NoMemory,
    /// The system refuses this address.
    Refused(SocketAddr, BindRefusal),
}

/// Opens a socket at the address: at that of a multicast group one that shares it with other
/// programs.
fn open<R: Net>(net: &R, address: SocketAddr) -> Result<UdpSocket, BindFault> {
    if address.ip().is_multicast() {
        if let Some(socket) = open_shared(address) {
            return Ok(socket);
        }
    }
    match UdpSocket::bind(net, address) {
        Ok(socket) => Ok(socket),
        Err(error) => Err(BindFault::Refused(address, refusal_of(error.kind()))),
    }
}

/// Whether one of these lines has the address, and no port that the system picks.
fn is_named(lines: &[Option<SocketAddr>], address: SocketAddr) -> bool {
    address.port() != 0 && lines.contains(&Some(address))
}

/// The address of the line at a place of the settings, if it has one.
fn address_at(settings: &ListenSettings, place: usize) -> Option<SocketAddr>
    requires { place < vec_len settings.now.lines }
    ensures { slice_get settings.now.lines.items place ≡ Some result }
{
    settings.lines[place]
}

/// Opens the socket of the line at a place of the settings, where it has an address, and appends
/// it. The lines before have these addresses.
fn bind_line<R: Net>(
    net: &R,
    before: &[Option<SocketAddr>],
    place: usize,
    asked: Option<SocketAddr>,
    lines: &mut Vec<BoundLine>,
) -> Result<(), BindFault>
    requires { place < 32 }
    ensures { OnOk result (map bound_line lines.new.items
        ≡ map bound_line lines.old.items ++ asked_line place asked) }
{
    let Some(address) = asked else {
        return Ok(());
    };
    if is_named(before, address) {
        return Err(BindFault::Refused(address, BindRefusal::InUse));
    }
    let bound = BoundLine {
        venue: VenueId::at(place / 2),
        line: line_at(place),
        socket: open(net, address)?,
        requests: None,
        records: None,
    };
    match lines.push(bound) {
        Ok(()) => Ok(()),
        Err(_) => Err(BindFault::NoMemory),
    }
}

/// Opens a socket for each of the settings' lines, in their order.
fn bind_lines<R: Net>(
    net: &R,
    alloc: Global,
    settings: &ListenSettings,
) -> Result<Vec<BoundLine>, BindFault>
    ensures { IfOk result (λ lines. map bound_line lines.items
        ≡ asked_lines 0 settings.now.lines.items) }
{
    let mut lines = Vec::new(alloc);
    for place in 0..settings.lines.len() {
        let before = &settings.lines.as_slice()[..place];
        let asked = address_at(settings, place);
        bind_line(net, before, place, asked, &mut lines)?;
    }
    Ok(lines)
}

/// The address of a socket from which requests go to the server: the system picks the port, and
/// the address by the way to the server.
fn request_address(server: SocketAddr) -> SocketAddr {
    match server {
        SocketAddr::V4(_) => SocketAddr::from((Ipv4Addr::UNSPECIFIED, 0)),
        SocketAddr::V6(_) => SocketAddr::from((Ipv6Addr::UNSPECIFIED, 0)),
    }
}

/// Whether the venue has a line at a multicast group's address, whose socket receives what goes to
/// the group and no reply.
fn has_group(settings: &ListenSettings, venue: VenueId) -> bool {
    let first = 2 * venue.index();
    settings
        .lines
        .iter()
        .skip(first)
        .take(2)
        .any(|line| match line {
            Some(address) => address.ip().is_multicast(),
            None => false,
        })
}

/// Returns another handle on the socket, which was opened at this address.
fn shared(socket: &UdpSocket, address: SocketAddr) -> Result<UdpSocket, BindFault> {
    match socket.try_clone() {
        Ok(copy) => Ok(copy),
        Err(_) => Err(BindFault::Refused(address, BindRefusal::Other)),
    }
}

/// Returns the same lines, of which those of the venue send their requests from the socket.
fn with_requests(
    alloc: Global,
    lines: Vec<BoundLine>,
    venue: VenueId,
    socket: &UdpSocket,
    address: SocketAddr,
) -> Result<Vec<BoundLine>, BindFault>
    ensures { IfOk result (λ with. map bound_line with.items ≡ map bound_line lines.items) }
{
    let mut with = Vec::new(alloc);
    for mut bound in lines {
        if bound.venue == venue {
            bound.requests = Some(shared(socket, address)?);
        }
        if with.push(bound).is_err() {
            return Err(BindFault::NoMemory);
        }
    }
    Ok(with)
}

/// Opens a socket for the venue's requests to the server, from which those of its lines go, too,
/// and which receives the replies as line R.
fn bind_requests<R: Net>(
    net: &R,
    alloc: Global,
    venue: VenueId,
    server: SocketAddr,
    lines: Vec<BoundLine>,
) -> Result<Vec<BoundLine>, BindFault>
    ensures { IfOk result (λ with. map bound_line with.items
        ≡ map bound_line lines.items ++ (venue, LineId.Recovery) ∷ []) }
{
    let address = request_address(server);
    let socket = open(net, address)?;
    let mut with = with_requests(alloc, lines, venue, &socket, address)?;
    let bound = BoundLine {
        venue,
        line: LineId::Recovery,
        socket,
        requests: None,
        records: None,
    };
    match with.push(bound) {
        Ok(()) => Ok(with),
        Err(_) => Err(BindFault::NoMemory),
    }
}

/// Does the same where the venue has a line at a multicast group's address.
fn bind_if<R: Net>(
    net: &R,
    alloc: Global,
    has_group: bool,
    venue: VenueId,
    server: SocketAddr,
    lines: Vec<BoundLine>,
) -> Result<Vec<BoundLine>, BindFault>
    ensures { IfOk result (λ with. map bound_line with.items
        ≡ map bound_line lines.items ++ reply_line has_group venue) }
{
    if has_group {
        bind_requests(net, alloc, venue, server, lines)
    } else {
        Ok(lines)
    }
}

/// Opens a socket for the requests of each venue that has a line at a multicast group's address.
fn bind_replies<R: Net>(
    net: &R,
    alloc: Global,
    settings: &ListenSettings,
    server: SocketAddr,
    lines: Vec<BoundLine>,
) -> Result<Vec<BoundLine>, BindFault>
    ensures { IfOk result (λ all.
        AddsReplies (vec_len settings.now.feed.sessions) lines.items all.items) }
{
    let mut all = lines;
    for place in 0..settings.feed.sessions.len() {
        let venue = VenueId::at(place);
        all = bind_if(net, alloc, has_group(settings, venue), venue, server, all)?;
    }
    Ok(all)
}

/// Opens a socket for each of the settings' lines, in their order, and then one for the requests of
/// each venue that has a line at a multicast group's address. Where that fails, or two lines have
/// one address, all are closed.
pub fn bind_sockets<R: Net>(
    net: &R,
    alloc: Global,
    settings: &ListenSettings,
) -> Result<Vec<BoundLine>, BindFault>
    ensures { IfOk result (λ lines. AreBoundFor settings.now lines.items) }
{
    let lines = bind_lines(net, alloc, settings)?;
    match settings.request {
        Some(server) => bind_replies(net, alloc, settings, server, lines),
        None => Ok(lines),
    }
}

/// The line about the fault, without the address.
fn bind_fault_line(fault: BindFault) -> &'static str
    ensures { result.now ≡ bind_fault_text fault }
{
    match fault {
        BindFault::NoMemory => NO_MEMORY,
        BindFault::Refused(..) => "nbbo: bind failed\n",
    }
}

/// Writes why no socket was opened, with the address that was refused, and why, where `is_named`.
pub fn write_bind_fault<E: TextOut>(alloc: Global, fault: BindFault, is_named: bool, errors: &mut E)
    ensures { is_named ≡ false → Says (writing_of E.TextOut)
        (bind_fault_text fault) errors.old errors.new }
{
    if !is_named {
        write_stderr(bind_fault_line(fault), errors);
        return;
    }
    if let BindFault::Refused(address, refusal) = fault {
        if let Ok(line) = format!(in alloc; "nbbo: bind failed: {address}: {refusal}\n") {
            write_stderr(line.as_str(), errors);
            return;
        }
    }
    write_stderr(bind_fault_line(fault), errors);
}

/// Appends where the socket is bound; where that can't be read, the address that was asked for.
fn push_address(
    alloc: Global,
    line: &mut String,
    bound: Option<&BoundLine>,
    asked: SocketAddr,
) -> Result<(), AllocError> {
    let address = match bound {
        Some(bound) => bound.socket.local_addr().unwrap_or(asked),
        None => asked,
    };
    let text = format!(in alloc; "{address}")?;
    line.push_str(text.as_str())
}

/// Returns the line that says where the program listens: the addresses of the sockets as `--lines`
/// has them, so with the ports that the system picked, and `-` for a line that isn't there. Where a
/// socket's address can't be read, the line has the one that was asked for.
pub fn listening_line(
    alloc: Global,
    bound: &[BoundLine],
    asked: &[Option<SocketAddr>],
) -> Result<String, AllocError> {
    let mut line = String::from_str(alloc, "nbbo: listening on ")?;
    let mut bound = bound.iter();
    for (place, asked) in asked.iter().enumerate() {
        if place > 0 {
            line.push(',')?;
        }
        match asked {
            Some(asked) => push_address(alloc, &mut line, bound.next(), *asked)?,
            None => line.push('-')?,
        }
    }
    line.push('\n')?;
    Ok(line)
}
