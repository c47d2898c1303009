//! Names of sessions as words of a command line.
ghost use Rattle.std.specs.Prelude.{◌≡◌, ◌+◌, ◌++◌, OnOk, codes, length};
ghost use Rattle.std.specs.List.{list_all, suffix_len};
ghost use Rattle.feed_types.specs.Symbols.{is_space};
ghost use Rattle.line_discovery.specs.SessionWords.{can_be_listed, is_listed_byte, is_plain_byte, session_word, trimmed_name};

use std::alloc::AllocError;

/// Returns whether a byte stands for itself in a list and in a shell.
fn is_plain_byte(byte: u8) -> bool
    ensures { result ≡ is_plain_byte byte }
{
    byte.is_ascii_alphanumeric()
        || byte == b'%'
        || byte == b'+'
        || byte == b'-'
        || byte == b'.'
        || byte == b'/'
        || byte == b':'
        || byte == b'@'
        || byte == b'_'
}

fn are_plain(bytes: &[u8]) -> bool
    ensures { result ≡ list_all is_plain_byte bytes.now }
{
    bytes.iter().all(|&byte| is_plain_byte(byte))
}

/// Returns whether a byte can stand between quotation marks in a list.
fn is_listed_byte(byte: u8) -> bool
    ensures { result ≡ is_listed_byte byte }
{
    byte != b',' && byte != b'\''
}

fn are_listed(bytes: &[u8]) -> bool
    ensures { result ≡ list_all is_listed_byte bytes.now }
{
    bytes.iter().all(|&byte| is_listed_byte(byte))
}

/// Returns how many bytes of a name come before the spaces at its end.
fn trimmed_len(name: &[u8]) -> usize
    ensures { result + suffix_len is_space name.now ≡ length name.now }
{
    let mut len = name.len();
    while len > 0 && name[len - 1] == b' ' {
        len -= 1;
    }
    len
}

/// Returns a name without the spaces at its end.
fn trimmed_name(name: &[u8]) -> &[u8]
    ensures { result.now ≡ trimmed_name name.now }
{
    &name[..trimmed_len(name)]
}

/// Returns whether a list can have the name: it isn't all spaces, and has no comma and no quotation
/// mark.
pub(crate) fn can_be_listed(name: &[u8]) -> bool
    ensures { result ≡ can_be_listed name.now }
{
    let trimmed = trimmed_name(name);
    !trimmed.is_empty() && are_listed(trimmed)
}

/// Appends a name in quotation marks.
fn put_quoted(text: &mut Vec<u8>, name: &[u8]) -> Result<(), AllocError>
    ensures { OnOk result (text.new.items ≡ text.old.items
        ++ (codes "'" ++ (name.now ++ codes "'"))) }
{
    text.extend_from_slice(b"'")?;
    text.extend_from_slice(name)?;
    text.extend_from_slice(b"'")
}

/// Appends a name without the spaces at its end, in quotation marks where a shell needs them.
pub(crate) fn put_session_word(text: &mut Vec<u8>, name: &[u8]) -> Result<(), AllocError>
    ensures { OnOk result (text.new.items ≡ text.old.items ++ session_word name.now) }
{
    let trimmed = trimmed_name(name);
    if are_plain(trimmed) {
        return text.extend_from_slice(trimmed);
    }
    put_quoted(text, trimmed)
}
