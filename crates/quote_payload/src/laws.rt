//! Laws of the forms of a message.

ghost use Rattle.std.specs.Prelude.{◌≡◌, ℕ, List};
ghost use Rattle.quote_payload.specs.Payload.{item_of};

use feed_types::Item;

/// No message is the end of a session. The end is announced by a packet of its own.
pub fn no_message_is_the_end()
    ensures { (message : List ℕ) → item_of message ≡ Item.End → ⊥ }
{}
