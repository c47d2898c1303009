//! Laws of the forms of a message.

ghost use Rattle.std.specs.Prelude.{◌≡◌, ◌++◌, ℕ, List, IsTrue};
ghost use Rattle.quote_payload.specs.Payload.{item_of};
ghost use Rattle.itch_messages.specs.Events.{order_event_of};
ghost use Rattle.itch_messages.specs.Forms.{telling_forms, silent_forms, is_one_of};

use crate::event::OrderEvent;
use feed_types::Item;

/// No message of the standard is a quotation or a halt of this project's own payload.
pub fn no_form_is_a_quotation()
    ensures { (message : List ℕ) → IsTrue (is_one_of (telling_forms ++ silent_forms) message)
        → item_of message ≡ Item.Other }
{}

/// A message of the standard that isn't of orders, their lots or their halts says nothing of them.
pub fn silent_forms_say_nothing()
    ensures { (message : List ℕ) → IsTrue (is_one_of silent_forms message)
        → order_event_of message ≡ OrderEvent.Other }
{}
