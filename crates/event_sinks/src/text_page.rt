//! A writer, and the page of text that waits before it.
ghost use Rattle.std.specs.Prelude.{◌≡◌, ◌≤◌, [], OnErr, OnOk};
ghost use Rattle.text_out.specs.Devices.{Moved};
ghost use Rattle.text_out.specs.Pages.{memory_of};

use crate::event_sink::SinkStop;
use text_out::{LineBuffer, TextOut, WriteStop, write_all};

/// The length in bytes from which text is written.
const PAGE: usize = 65_536;

/// A writer, and the text that waits before it: a page at most, and the lines of one event. There
/// is memory for them.
#[derive(Drop)]
pub struct TextPage<W> {
    pub writer: W,
    pub text: LineBuffer,
    pub ghost has_memory: { 67584 ≤ memory_of text },
}

impl<W> TextPage<W> {
    /// The text waits before the writer.
    pub fn new(text: LineBuffer, writer: W) -> TextPage<W>
        requires { 67584 ≤ memory_of text }
        ensures writer { result.writer ≡ writer }
        ensures text { result.text ≡ text }
    {
        TextPage { writer, text }
    }

    /// Returns the writer, as the last call left it.
    pub fn into_writer(self) -> W
        ensures { result ≡ self.writer }
    {
        let TextPage { writer, text: _ } = self;
        writer
    }
}

impl<W: TextOut> TextPage<W> {
    ghost use Rattle.event_sinks.specs.TextPages.{FailsPage};

    /// Writes all of the text.
    #[inline(never)]
    pub fn write(&mut self) -> Result<(), SinkStop>
        ensures written { OnOk result
            (Moved W.adds self.old.writer self.new.writer self.old.text.items self.new.text.items) }
        ensures none { OnOk result (self.new.text.items ≡ []) }
        ensures kept { OnOk result (W.failures self.new.writer ≡ W.failures self.old.writer) }
        ensures part { OnErr result
            (FailsPage W.adds W.failures self.old self.old.text.items self.new) }
    {
        match write_all(self.text.as_slice(), &mut self.writer) {
            Ok(()) => {
                self.text.clear();
                Ok(())
            }
            Err(WriteStop::Failed) => Err(SinkStop::Failed),
        }
    }

    /// Writes the text, once it is a page. After it there is room for a line.
    #[inline(always)]
    pub fn write_full(&mut self) -> Result<(), SinkStop>
        ensures written { OnOk result
            (Moved W.adds self.old.writer self.new.writer self.old.text.items self.new.text.items) }
        ensures kept { OnOk result (W.failures self.new.writer ≡ W.failures self.old.writer) }
        ensures room { OnOk result (1024 ≤ self.new.text.room) }
        ensures part { OnErr result
            (FailsPage W.adds W.failures self.old self.old.text.items self.new) }
    {
        if self.text.len() >= PAGE {
            return self.write();
        }
        Ok(())
    }
}
