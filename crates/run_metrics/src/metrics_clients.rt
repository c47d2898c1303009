//! The clients that ask for a run's counts by HTTP, from what they ask to what they take.

use crate::metrics_client::MetricsClient;
use crate::reply::Reply;
use std::alloc::{AllocError, Global};
use std::net::TcpListener;

/// How many milliseconds are between two looks at the clients at least.
const LOOK_MS: u64 = 20;

/// The most clients at a time; others wait until one is gone.
const MOST_CLIENTS: usize = 16;

/// The clients of a listener. Nobody is waited for: a look takes what has come, and gives each
/// client what it takes.
#[derive(Drop)]
pub struct MetricsClients {
    alloc: Global,
    listener: TcpListener,
    clients: Vec<MetricsClient>,
    /// How many milliseconds after the beginning of the run the next look is due.
    due_ms: u64,
}

impl MetricsClients {
    /// The clients that connect to this listener, which never waits: none yet.
    pub fn new(alloc: Global, listener: TcpListener) -> MetricsClients {
        MetricsClients {
            alloc,
            listener,
            clients: Vec::new(alloc),
            due_ms: 0,
        }
    }

    /// Takes the clients that have connected, as many as there is room for. One for which memory is
    /// refused is gone.
    fn accept(&mut self, elapsed_ms: u64) {
        for _ in self.clients.len()..MOST_CLIENTS {
            let Ok((stream, _)) = self.listener.accept() else {
                return;
            };
            if let Some(client) = MetricsClient::new(self.alloc, stream, elapsed_ms) {
                let _ = self.clients.push(client);
            }
        }
    }

    /// Takes new clients, unless it has done so just before, and returns how many there are: 0
    /// where no look is due.
    pub fn look(&mut self, elapsed_ms: u64) -> usize {
        if elapsed_ms < self.due_ms {
            return 0;
        }
        self.due_ms = elapsed_ms.saturating_add(LOOK_MS);
        self.accept(elapsed_ms);
        self.clients.len()
    }

    /// Reads what the client at a place asks, and returns the reply to it once there is one.
    pub fn read_request(&mut self, place: usize) -> Option<Reply> {
        self.clients.get_mut(place)?.read_request()
    }

    /// Gives the client at a place this answer; where memory for one was refused the client is
    /// gone.
    pub fn give(&mut self, place: usize, answer: Result<Vec<u8>, AllocError>) {
        if let Some(client) = self.clients.get_mut(place) {
            client.give(answer);
        }
    }

    /// Writes what the client at a place takes, and ends its time where that is over.
    pub fn go_on(&mut self, place: usize, elapsed_ms: u64) {
        if let Some(client) = self.clients.get_mut(place) {
            client.go_on(elapsed_ms);
        }
    }

    /// Lets those go that have gone or whose time is over.
    pub fn let_go(&mut self) {
        self.clients.retain(|client| !client.is_gone());
    }
}
