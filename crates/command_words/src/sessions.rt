//! The list of sessions on the command line.
ghost use Rattle.std.specs.Prelude.{◌≡◌, ◌≤◌, All, IfOk, length, map, vec_len};
ghost use Rattle.std.specs.List.{list_all};
ghost use Rattle.command_words.specs.Readings.{Gives, OrNoMemory, mapped};
ghost use Rattle.command_words.specs.Sessions.{ReadsSessions, filled_name, first_name, is_session_byte, is_session_name, sessions_by};

use crate::refusal::Refusal;
use feed_types::{MAX_VENUES, SessionName};
use std::alloc::{AllocError, Global};

/// The number of bytes of a session's name in a packet.
const NAME_LEN: usize = 10;

fn is_printable(bytes: &[u8]) -> bool
    ensures { result ≡ list_all is_session_byte bytes.now }
{
    bytes.iter().all(|&byte| 0x20 <= byte && byte <= 0x7e)
}

/// Returns whether `name` is 1 to 10 bytes of `20` to `7e`.
pub fn is_name(name: &[u8]) -> bool
    ensures { result ≡ is_session_name name.now }
{
    !name.is_empty() && name.len() <= NAME_LEN && is_printable(name)
}

/// Returns whether each of these is the name of a session.
pub fn are_names(names: &[&str]) -> bool
    ensures { result ≡ list_all (λ name. is_session_name name.now) names.now }
{
    names.iter().all(|name| is_name(name.as_bytes()))
}

/// Returns the name as packets carry it, filled on the right with spaces.
pub fn filled(name: &[u8]) -> SessionName
    requires { length name.now ≤ 10 }
    ensures { result ≡ filled_name name.now }
{
    let mut session = [b' '; NAME_LEN];
    session[..name.len()].copy_from_slice(name);
    session
}

/// Returns these names as packets carry them.
pub fn filled_all(alloc: Global, names: &[&str]) -> Result<Vec<SessionName>, AllocError>
    requires { All (λ name. length name.now ≤ 10) names.now }
    ensures { IfOk result (λ sessions.
        sessions.items ≡ map (λ name. filled_name name.now) names.now) }
{
    let mut sessions = Vec::with_capacity(alloc, names.len())?;
    for name in names {
        sessions.push(filled(name.as_bytes()))?;
    }
    Ok(sessions)
}

/// Returns the sessions of these names, each with the ten bytes that packets carry.
///
/// Names may be equal, all spaces, or differ only in the spaces at their ends.
fn sessions_by(alloc: Global, names: &[&str]) -> Result<Vec<SessionName>, Refusal>
    ensures reads { OrNoMemory (Gives (sessions_by (map (λ name. name.now) names.now)))
        (mapped (λ sessions. sessions.items) result) }
    ensures count { IfOk result (λ sessions. vec_len sessions ≤ 16) }
    ensures some { 1 ≤ length names.now → IfOk result (λ sessions. 1 ≤ vec_len sessions) }
{
    if !are_names(names) {
        return Err(Refusal::BadSession);
    }
    if names.len() > MAX_VENUES {
        return Err(Refusal::TooManySessions);
    }
    Ok(filled_all(alloc, names)?)
}

/// Returns the name of a venue's first session, where others may follow it after slashes, or may
/// not.
pub fn first_name(text: &str, chained: bool) -> &str
    ensures { result.now ≡ first_name chained text.now }
{
    if !chained {
        return text;
    }
    match text.split_once('/') {
        Some((first, _)) => first,
        None => text,
    }
}

/// Returns the names of the venues' first sessions.
fn first_names<'a>(
    alloc: Global,
    texts: &[&'a str],
    chained: bool,
) -> Result<Vec<&'a str>, AllocError>
    ensures { IfOk result (λ names. map (λ name. name.now) names.items
        ≡ map (λ text. first_name chained text.now) texts.now) }
{
    let mut names = Vec::with_capacity(alloc, texts.len())?;
    for text in texts {
        names.push(first_name(*text, chained))?;
    }
    Ok(names)
}

/// Returns the first sessions of the venues of a list, where others may follow each after slashes,
/// or may not.
pub fn read_sessions(alloc: Global, list: &str, chained: bool) -> Result<Vec<SessionName>, Refusal>
    ensures reads { ReadsSessions chained list.now (mapped (λ sessions. sessions.items) result) }
    ensures count { IfOk result (λ sessions. (1 ≤ vec_len sessions) × (vec_len sessions ≤ 16)) }
{
    let texts: Vec<&str> = list.split(',').collect(alloc)?;
    let names = first_names(alloc, texts.as_slice(), chained)?;
    sessions_by(alloc, names.as_slice())
}
