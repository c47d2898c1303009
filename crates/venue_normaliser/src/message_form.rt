//! The bytes of an item.

ghost use Rattle.std.specs.Prelude.{◌≡◌, ◌⊎◌, ◌≤◌, length};
ghost use Rattle.quote_payload.specs.Payload.{item_of};
ghost use Rattle.venue_normaliser.specs.Forms.{form_bytes, item_bytes};

use feed_types::Item;
use quote_payload::{fits_v1, write_halt, write_quote, write_quote2};

/// An item as a message of this project's own payload.
#[derive(Clone, Copy, Debug, PartialEq, Eq)]
pub enum MessageForm {
    /// A quotation whose sizes have 32 bits: version 1.
    Quote([u8; 26]),
    /// A quotation with a size of more than 32 bits: version 2.
    WideQuote([u8; 34]),
    /// A halt, or the end of one.
    Halt([u8; 10]),
    /// An empty message, which takes its number and reads as Other.
    Empty,
}

impl MessageForm {
    /// Returns the message of an item, which reads as that item. End and Skipped are no messages;
    /// theirs is empty.
    pub fn new(item: &Item) -> MessageForm
        ensures bytes { form_bytes result ≡ item_bytes item.now }
        ensures reads { (item_of (form_bytes result) ≡ item.now)
            ⊎ ((item.now ≡ Item.End) ⊎ (item.now ≡ Item.Skipped)) }
    {
        match item {
            Item::Quote(quote) => {
                if fits_v1(quote) {
                    MessageForm::Quote(write_quote(quote))
                } else {
                    MessageForm::WideQuote(write_quote2(quote))
                }
            }
            Item::Halt { symbol, halted } => MessageForm::Halt(write_halt(*symbol, *halted)),
            Item::Other | Item::End | Item::Skipped => MessageForm::Empty,
        }
    }

    /// Lends the message's bytes, 0 to 34.
    pub fn as_bytes(&self) -> &[u8]
        ensures bytes { result.now ≡ form_bytes self.now }
        ensures short { length result.now ≤ 34 }
    {
        match self {
            MessageForm::Quote(bytes) => bytes,
            MessageForm::WideQuote(bytes) => bytes,
            MessageForm::Halt(bytes) => bytes,
            MessageForm::Empty => &[],
        }
    }
}
