//! A datagram that came on a line.

ghost use Rattle.std.specs.Prelude.{◌≡◌, None};

/// The bytes of one datagram, and when it was received, if that was said.
#[derive(Drop)]
pub struct Datagram {
    pub(crate) all: Vec<u8>,
    pub(crate) time: Option<u64>,
}

impl Datagram {
    ghost use Rattle.venue_lines.specs.Datagrams.{bytes_of};

    /// A datagram of these bytes. When it was received is not said.
    pub fn new(bytes: Vec<u8>) -> Datagram
        ensures bytes { bytes_of result ≡ bytes.items }
        ensures time { result.time ≡ None }
    {
        Datagram {
            all: bytes,
            time: None,
        }
    }

    /// The same datagram, received at this time in nanoseconds from 1970 on, if that is known. A
    /// feed that keeps times tells it of the changes that the datagram causes.
    pub fn received_at(self, time: Option<u64>) -> Datagram
        ensures bytes { bytes_of result ≡ bytes_of self }
        ensures time { result.time ≡ time }
    {
        let Datagram { all, time: _ } = self;
        Datagram { all, time }
    }

    /// When it was received, if that was said.
    pub(crate) fn time(&self) -> Option<u64>
        ensures { result ≡ self.now.time }
    {
        self.time
    }

    /// The datagram's bytes.
    pub fn bytes(&self) -> &[u8]
        ensures { result.now ≡ bytes_of self.now }
    {
        self.all.as_slice()
    }

    /// The memory that has the datagram's bytes, for another one.
    pub fn into_bytes(self) -> Vec<u8>
        ensures { result.items ≡ bytes_of self }
    {
        let Datagram { time: _, all } = self;
        all
    }
}
