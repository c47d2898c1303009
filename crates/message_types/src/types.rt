//! The types of messages.
ghost use Rattle.std.specs.Prelude.{◌≡◌, ◌<◌, ◌≤◌, length};
ghost use Rattle.report_rows.specs.RowTexts.{texts_of};
ghost use Rattle.message_types.specs.Types.{type_word, type_words};

/// How many types there are: each form of the standard, and all else.
pub(crate) const TYPES: usize = 24;

/// Returns the words of the types.
fn type_words() -> [&'static str; 24]
    ensures { texts_of result ≡ type_words }
{
    [
        "A", "F", "E", "C", "X", "D", "U", "R", "H", "h", "S", "Y", "L", "V", "W", "K", "J", "P",
        "Q", "B", "I", "N", "O", "other",
    ]
}

/// Returns the word of the type at a place, 0 to 23.
pub(crate) fn type_word(place: usize) -> &'static str
    requires { place < 24 }
    ensures word { result.now ≡ type_word place }
    ensures short { length result.now ≤ 40 }
{
    type_words()[place]
}
