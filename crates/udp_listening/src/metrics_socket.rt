//! The socket of a server of metrics.

use crate::sockets::{BindFault, refusal_of};
use std::alloc::{AllocError, Global};
use std::io;
use std::net::{Net, SocketAddr, TcpListener, TcpStream};

/// Opens a socket at the address, which doesn't wait for clients. Where that fails it is refused.
pub fn bind_metrics<R>(net: &R, address: SocketAddr) -> Result<TcpListener, BindFault>
where
    R: Net<Listener = TcpListener, Stream = TcpStream>,
{
    let refused = |error: io::Error| BindFault::Refused(address, refusal_of(error.kind()));
    let listener = TcpListener::bind(net, address).map_err(refused)?;
    listener.set_nonblocking(true).map_err(refused)?;
    Ok(listener)
}

/// The line that says where metrics are served: with the port that the system picked. Where the
/// socket's address can't be read, the line has the one that was asked for.
pub fn metrics_line(
    alloc: Global,
    listener: &TcpListener,
    asked: SocketAddr,
) -> Result<String, AllocError> {
    let address = listener.local_addr().unwrap_or(asked);
    format!(in alloc; "nbbo: metrics at http://{address}/metrics\n")
}
