//! The name of a session on standard error.
ghost use Rattle.std.specs.Prelude.{◌≡◌};
ghost use Rattle.std.specs.List.{list_all};
ghost use Rattle.text_out.specs.Members.{writing_of};
ghost use Rattle.text_out.specs.StandardError.{Says, SaysEach};
ghost use Rattle.run_notes.specs.SessionNames.{is_shown, name_texts};

use feed_types::SessionName;
use text_out::{TextOut, write_all, write_stderr};

/// Returns whether a terminal can show all of a name.
fn is_shown(name: &[u8]) -> bool
    ensures { result ≡ list_all is_shown name.now }
{
    name.iter().all(|b| *b >= 32 && *b < 127)
}

/// Writes a name as it is.
fn write_bytes<E: TextOut>(name: &SessionName, errors: &mut E)
    ensures { Says (writing_of E.TextOut) name.now errors.old errors.new }
{
    let _ = write_all(name, errors);
}

/// Writes the name of a session.
pub fn write_session_name<E: TextOut>(name: &SessionName, errors: &mut E)
    ensures { SaysEach (writing_of E.TextOut) (name_texts name.now) errors.old errors.new }
{
    if !is_shown(name) {
        write_stderr("(bytes that can't be shown)", errors);
        return;
    }
    write_stderr("\"", errors);
    write_bytes(name, errors);
    write_stderr("\"", errors);
}
