//! The forms of messages.
ghost use Rattle.std.specs.Prelude.{◌≡◌, ◌≤◌, length};
ghost use Rattle.std.specs.List.{position_or_len};
ghost use Rattle.quote_payload.specs.Payload.{type_at};
ghost use Rattle.itch_messages.specs.Events.{is_form};
ghost use Rattle.itch_messages.specs.Forms.{is_one_of};
ghost use Rattle.message_forms.specs.Payloads.{is_itch, is_own, itch_place};

/// A form of messages: its type, which is the first byte, and its length.
type Form = (u8, usize);

/// This project's own forms: both quotations, and the halt.
const OWN_FORMS: [Form; 3] = [(0x51, 26), (0x71, 34), (0x48, 10)];

/// The forms of the standard, those that say something of orders first.
const ITCH_FORMS: [Form; 23] = [
    (b'A', 36),
    (b'F', 40),
    (b'E', 31),
    (b'C', 36),
    (b'X', 23),
    (b'D', 19),
    (b'U', 35),
    (b'R', 39),
    (b'H', 25),
    (b'h', 21),
    (b'S', 12),
    (b'Y', 20),
    (b'L', 26),
    (b'V', 35),
    (b'W', 12),
    (b'K', 28),
    (b'J', 35),
    (b'P', 44),
    (b'Q', 40),
    (b'B', 19),
    (b'I', 50),
    (b'N', 20),
    (b'O', 48),
];

/// Returns the type of a message: its first byte, 0 where it is empty.
fn type_of(message: &[u8]) -> u8
    ensures { result ≡ type_at message.now }
{
    match message.first() {
        Some(kind) => *kind,
        None => 0,
    }
}

/// Returns whether a message of this type and length has the form.
fn has_form(form: &Form, kind: u8, len: usize) -> bool
    ensures { result ≡ is_form form.now.0 form.now.1 kind len }
{
    kind == form.0 && len == form.1
}

/// Returns whether a message has one of these forms.
fn is_one_of(forms: &[Form], message: &[u8]) -> bool
    ensures { result ≡ is_one_of forms.now message.now }
{
    let kind = type_of(message);
    let len = message.len();
    forms.iter().any(|form| has_form(form, kind, len))
}

/// Returns the place of the first form that a message of this type and length has, or how many
/// forms there are.
fn place_of(forms: &[Form], kind: u8, len: usize) -> usize
    ensures place { result
        ≡ position_or_len (λ form. is_form form.0 form.1 kind len) forms.now }
    ensures within { result ≤ length forms.now }
{
    for place in 0..forms.len() {
        if has_form(&forms[place], kind, len) {
            return place;
        }
    }
    forms.len()
}

/// Returns whether a message has one of the three forms of this project's own messages.
pub fn is_own(message: &[u8]) -> bool
    ensures { result ≡ is_own message.now }
{
    is_one_of(&OWN_FORMS, message)
}

/// Returns whether a message has one of the 23 forms of TotalView-ITCH 5.0.
pub fn is_itch(message: &[u8]) -> bool
    ensures { result ≡ is_itch message.now }
{
    is_one_of(&ITCH_FORMS, message)
}

/// Returns the place of a message's form among the 23 of TotalView-ITCH 5.0, 23 where it has none
/// of them.
#[tactic(auto, unfolding(crate::specs::Payloads::itch_place))]
pub fn itch_place(message: &[u8]) -> usize
    ensures place { result ≡ itch_place message.now }
    ensures within { result ≤ 23 }
{
    place_of(&ITCH_FORMS, type_of(message), message.len())
}
