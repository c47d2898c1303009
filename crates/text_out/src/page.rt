//! The text that waits to be written, and room for a line after it.
ghost use Rattle.std.specs.Prelude.{◌≡◌, ◌≤◌, [], length, IfOk, IsOk, OnOk};
ghost use Rattle.text_out.specs.Pages.{memory_of};

use std::alloc::{AllocError, Global};
use std::marker::Model;

/// The bytes by which a line buffer grows.
static MORE: [u8; 2048] = [0; 2048];

/// The bytes of a page, and of a line after it.
const PAGE_SIZE: usize = 67_584;

/// A text that grows by lines. A line's room is made before it is placed, so that its parts need no
/// test.
#[derive(Drop)]
pub struct LineBuffer {
    /// The text, and then room whose bytes have no meaning.
    pub bytes: Vec<u8>,
    /// The end of the text.
    pub end: usize,
}

impl Model for LineBuffer {
    ghost use Rattle.std.specs.Prelude.{◌-◌, ◌≤◌, length, take};
    ghost use Rattle.text_out.specs.Pages.{BufferedText, buffered_code};

    ghost Value = { BufferedText };

    ghost coded = { buffered_code };

    ghost view = { λ p. record {
      items = take p.end p.bytes.items;
      room = length p.bytes.items - p.end;
    } };

    ghost invariant = { λ p. p.end ≤ length p.bytes.items };
}

impl LineBuffer {
    /// An empty text. It takes no memory before there is some text.
    pub fn new(alloc: Global) -> LineBuffer
        ensures items { result.items ≡ [] }
    {
        LineBuffer {
            bytes: Vec::new(alloc),
            end: 0,
        }
    }

    /// An empty text with memory for a page of 65,536 bytes, and for a line after it.
    pub fn for_page(alloc: Global) -> Result<LineBuffer, AllocError>
        ensures items { IfOk result (λ text. text.items ≡ []) }
        ensures room { IfOk result (λ text. text.room ≡ 67584) }
    {
        Ok(LineBuffer {
            bytes: vec![in alloc; 0u8; PAGE_SIZE]?,
            end: 0,
        })
    }

    /// The length of the text in bytes.
    pub fn len(&self) -> usize
        ensures value { result ≡ length self.now.items }
    {
        self.end
    }

    /// The text.
    pub fn as_slice(&self) -> &[u8]
        ensures value { result.now ≡ self.now.items }
    {
        &self.bytes[..self.end]
    }

    /// Empties the text. Its memory stays.
    pub fn clear(&mut self)
        ensures items { self.new.items ≡ [] }
        ensures size { memory_of self.new ≡ memory_of self.old }
    {
        self.end = 0;
    }

    /// Makes room for a line of `bytes` bytes. Fails where memory was refused.
    #[inline(always)]
    pub fn make_room(&mut self, bytes: usize) -> Result<(), AllocError>
        requires { bytes ≤ 1024 }
        ensures kept { self.new.items ≡ self.old.items }
        ensures room { OnOk result (bytes ≤ self.new.room) }
        ensures size { memory_of self.old ≤ memory_of self.new }
        ensures fits { bytes ≤ self.old.room → IsOk result }
    {
        if self.bytes.len() - self.end < bytes {
            return self.grow();
        }
        Ok(())
    }

    #[cold]
    #[inline(never)]
    fn grow(&mut self) -> Result<(), AllocError>
        ensures kept { self.new.items ≡ self.old.items }
        ensures room { OnOk result (1024 ≤ self.new.room) }
        ensures size { memory_of self.old ≤ memory_of self.new }
    {
        self.bytes.extend_from_slice(&MORE)
    }
}
