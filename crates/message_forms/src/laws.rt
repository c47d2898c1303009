//! Laws of the payloads.
ghost use Rattle.std.specs.Prelude.{◌≡◌, ◌⊎◌, ℕ, List, IsTrue};
ghost use Rattle.quote_payload.specs.Payload.{item_of};
ghost use Rattle.message_forms.specs.Payloads.{is_itch, is_own};

use feed_types::Item;
use itch_messages::no_form_is_a_quotation;

/// A quotation or a halt of this project's has one of its forms, and none of the standard's.
pub fn a_quotation_is_an_own_message()
    ensures own { (message : List ℕ) → IsTrue (is_own message) ⊎ (item_of message ≡ Item.Other) }
    ensures itch { (message : List ℕ) → IsTrue (is_itch message) → item_of message ≡ Item.Other }
{
    no_form_is_a_quotation();
}
