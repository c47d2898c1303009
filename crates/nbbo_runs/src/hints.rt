//! Hints: what was probably meant where something else was given. They are made of values: what
//! stands where a capture is bad, and what a run returns.
ghost use Rattle.std.specs.Prelude.{◌≡◌};
ghost use Rattle.nbbo_runs.specs.Hints.{format_hint, hint_text, is_packets, journal_hint, packed_hint};

use std::fs::{self, File, Files};
use text_out::{TextOut, write_stderr};

/// The line before a terminal is read.
const AT_TERMINAL: &str =
    "nbbo: reading a capture from the terminal ('nbbo replay --help' tells more)\n";

/// The line for a packet capture that is read as one of the project's own format.
const PACKETS: &str =
    "nbbo: the input is a packet capture (pcap or pcapng); --lines LIST says which of its datagrams to replay\n";

/// What packet captures begin with: pcap in either order of bytes, with microseconds and with
/// nanoseconds, and pcapng.
const PCAP: u32 = 0xd4c3_b2a1;

const PCAP_BIG: u32 = 0xa1b2_c3d4;

const PCAP_NANOS: u32 = 0x4d3c_b2a1;

const PCAP_NANOS_BIG: u32 = 0xa1b2_3c4d;

const PCAPNG: u32 = 0x0a0d_0d0a;

/// The first two bytes of a file in gzip.
const GZIP: u32 = 0x1f8b;

/// The first three bytes of a file in bzip2.
const BZIP2: u32 = 0x0042_5a68;

/// The first four bytes of a file in zstd, in xz and in lz4.
const ZSTD: u32 = 0x28b5_2ffd;

const XZ: u32 = 0xfd37_7a58;

const LZ4: u32 = 0x0422_4d18;

/// Returns the line for an input that is a terminal; empty for another one.
pub fn input_hint(at_terminal: bool) -> &'static str
    ensures { result.now ≡ hint_text at_terminal }
{
    if at_terminal { AT_TERMINAL } else { "" }
}

/// Returns whether a packet capture starts so, by the number of its first four bytes.
pub(crate) fn is_packets(start: u32) -> bool
    ensures { result ≡ is_packets start }
{
    start == PCAP
        || start == PCAP_BIG
        || start == PCAP_NANOS
        || start == PCAP_NANOS_BIG
        || start == PCAPNG
}

/// Returns the line for an input that is no capture of this project's own, by the number of its
/// first four bytes; empty where it may be one.
pub(crate) fn format_hint(start: u32) -> &'static str
    ensures { result.now ≡ format_hint start }
{
    if is_packets(start) {
        PACKETS
    } else {
        packed_hint(start)
    }
}

/// Returns the line for an input that is to be unpacked, by the number of its first four bytes;
/// empty for another one.
pub(crate) fn packed_hint(start: u32) -> &'static str
    ensures { result.now ≡ packed_hint start }
{
    if start / 65_536 == GZIP {
        "nbbo: the input is in gzip; to unpack it write 'zcat FILE | nbbo ..'\n"
    } else if start / 256 == BZIP2 {
        "nbbo: the input is in bzip2; to unpack it write 'bzcat FILE | nbbo ..'\n"
    } else if start == ZSTD {
        "nbbo: the input is in zstd; to unpack it write 'zstdcat FILE | nbbo ..'\n"
    } else if start == XZ {
        "nbbo: the input is in xz; to unpack it write 'xzcat FILE | nbbo ..'\n"
    } else if start == LZ4 {
        "nbbo: the input is in lz4; to unpack it write 'lz4cat FILE | nbbo ..'\n"
    } else {
        ""
    }
}

/// Returns the line for a run whose journal was full; empty for another one.
pub fn journal_hint(is_full: bool) -> &'static str
    ensures { result.now ≡ journal_hint is_full }
{
    if is_full {
        "nbbo: --journal N gives the journal room for N entries\n"
    } else {
        ""
    }
}

/// Returns whether the word names a file that can be read.
fn is_file<F: Files>(files: &F, word: &str) -> bool {
    match fs::metadata(files, word) {
        Ok(metadata) => metadata.is_file() && File::open(files, word).is_ok(),
        Err(_) => false,
    }
}

/// Writes a line for the first word for a symbol that names a file, if there is one.
pub fn hint_at_file<F: Files, E: TextOut>(files: &F, symbols: &[&str], errors: &mut E) {
    for word in symbols {
        if is_file(files, *word) {
            write_stderr("nbbo: ", errors);
            write_stderr(*word, errors);
            write_stderr(
                " is taken for a symbol; to read the file of that name write '< ",
                errors,
            );
            write_stderr(*word, errors);
            write_stderr("'\n", errors);
            return;
        }
    }
}
