//! The addresses on the command line.
ghost use Rattle.std.specs.Prelude.{◌≡◌, ◌*◌, ◌≤◌, ◌↔◌, IfOk, IsTrue, false, length, map, option_map, true, vec_len};
ghost use Rattle.command_words.specs.Addresses.{AreSpelled, HasBareVenue, IsAbsentAt, IsAskable, NameLines, ReadsLines, ReadsMetrics, ReadsRequest, SpellsLine, is_of_version};
ghost use Rattle.command_words.specs.Readings.{Finds, OrNoMemory, mapped};
ghost use Rattle.command_words.specs.declared.refusal.Refusal.TheVariants.{BadLines};

use crate::refusal::Refusal;
use std::alloc::Global;
use std::net::SocketAddr;

/// Returns the address of the line that the text spells, `None` where it spells one that isn't
/// there.
fn read_line(text: &str) -> Result<Option<SocketAddr>, Refusal>
    ensures { Finds (SpellsLine text.now) BadLines result }
{
    if text == "-" {
        return Ok(None);
    }
    match SocketAddr::parse_ascii(text.as_bytes()) {
        Ok(address) => Ok(Some(address)),
        Err(_) => Err(Refusal::BadLines),
    }
}

/// Returns the lines that the texts spell, in order.
fn spelled(alloc: Global, texts: &[&str]) -> Result<Vec<Option<SocketAddr>>, Refusal>
    ensures reads { OrNoMemory
        (Finds (AreSpelled SpellsLine (map (λ text. text.now) texts.now)) BadLines)
        (mapped (λ lines. lines.items) result) }
    ensures count { IfOk result (λ lines. vec_len lines ≡ length texts.now) }
{
    let mut lines = Vec::with_capacity(alloc, texts.len())?;
    for text in texts {
        let Ok(line) = read_line(text) else {
            return Err(Refusal::BadLines);
        };
        if lines.push(line).is_err() {
            return Err(Refusal::NoMemory);
        }
    }
    Ok(lines)
}

/// Returns the lines that a list names, two for each of `venues` venues.
fn named_lines(alloc: Global, list: &str, venues: usize) -> Result<Vec<Option<SocketAddr>>, Refusal>
    requires { venues ≤ 16 }
    ensures reads { OrNoMemory (Finds (NameLines list.now venues) BadLines)
        (mapped (λ lines. lines.items) result) }
    ensures count { IfOk result (λ lines. vec_len lines ≡ 2 * venues) }
{
    let texts: Vec<&str> = list.split(',').collect(alloc)?;
    if texts.len() != 2 * venues {
        return Err(Refusal::BadLines);
    }
    match spelled(alloc, texts.as_slice()) {
        Ok(lines) => Ok(lines),
        Err(refusal) => Err(refusal),
    }
}

/// Returns whether the line at a place isn't there.
fn is_absent_at(lines: &[Option<SocketAddr>], place: usize) -> bool
    ensures { IsTrue result ↔ IsAbsentAt lines.now place }
{
    matches!(lines.get(place), Some(None))
}

/// Returns whether one of `venues` venues has no line.
fn has_bare_venue(lines: &[Option<SocketAddr>], venues: usize) -> bool
    requires two_each { length lines.now ≡ 2 * venues }
    requires few { venues ≤ 16 }
    ensures found { result ≡ true → HasBareVenue lines.now }
    ensures not_found { result ≡ false → HasBareVenue lines.now → ⊥ }
{
    for venue in 0..venues {
        if is_absent_at(lines, 2 * venue) && is_absent_at(lines, 2 * venue + 1) {
            return true;
        }
    }
    false
}

/// Returns the lines that a list names, two for each of `venues` venues, of which each has one that
/// is there.
pub fn read_lines(
    alloc: Global,
    list: &str,
    venues: usize,
) -> Result<Vec<Option<SocketAddr>>, Refusal>
    requires { venues ≤ 16 }
    ensures reads { ReadsLines list.now venues (mapped (λ lines. lines.items) result) }
    ensures count { IfOk result (λ lines. vec_len lines ≡ 2 * venues) }
{
    let lines = named_lines(alloc, list, venues)?;
    if has_bare_venue(lines.as_slice(), venues) {
        return Err(Refusal::BadLines);
    }
    Ok(lines)
}

/// Returns the address at which metrics are served, if a text is given for it.
pub fn read_metrics(text: Option<&str>) -> Result<Option<SocketAddr>, Refusal>
    ensures { ReadsMetrics (option_map (λ text. text.now) text.entry) result }
{
    let Some(text) = text else {
        return Ok(None);
    };
    match SocketAddr::parse_ascii(text.as_bytes()) {
        Ok(address) => Ok(Some(address)),
        Err(_) => Err(Refusal::BadMetrics),
    }
}

/// Returns whether the line is of this version of IP, 4 or else 6, if it is there.
fn is_of_version(four: bool, line: &Option<SocketAddr>) -> bool
    ensures { result ≡ is_of_version four line.now }
{
    match line {
        Some(line) => line.is_ipv4() == four,
        None => true,
    }
}

/// Returns whether a request can be sent to the address from each of the lines.
fn is_askable(address: &SocketAddr, lines: &[Option<SocketAddr>]) -> bool
    ensures { IsTrue result ↔ IsAskable lines.now address.now }
{
    let four = address.is_ipv4();
    address.port() != 0
        && !address.ip().is_unspecified()
        && lines.iter().all(|line| is_of_version(four, line))
}

/// Returns the address that these lines' requests are sent to, if a text is given for it.
pub fn read_request(
    text: Option<&str>,
    lines: &[Option<SocketAddr>],
) -> Result<Option<SocketAddr>, Refusal>
    ensures { ReadsRequest lines.now (option_map (λ text. text.now) text.entry) result }
{
    let Some(text) = text else {
        return Ok(None);
    };
    match SocketAddr::parse_ascii(text.as_bytes()) {
        Ok(address) if is_askable(&address, lines) => Ok(Some(address)),
        _ => Err(Refusal::BadRequest),
    }
}
