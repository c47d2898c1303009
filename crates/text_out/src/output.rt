//! Calls of a writer, until a text is written.
ghost use Rattle.std.specs.Prelude.{◌≡◌, ◌+◌, OnOk, OnErr};
ghost use Rattle.text_out.specs.Devices.{Wrote};

use crate::devices::{TextOut, WriteStop};

/// Writes all of `text`, by as many calls as that takes, up to one that fails.
pub fn write_all<W: TextOut>(text: &[u8], writer: &mut W) -> Result<(), WriteStop>
    ensures ok { OnOk result (W.adds writer.old text.now writer.new) }
    ensures failed { OnErr result (W.failures writer.new ≡ W.failures writer.old + 1) }
    ensures part { OnErr result (Wrote W.adds writer.old text.now writer.new) }
    ensures kept { OnOk result (W.failures writer.new ≡ W.failures writer.old) }
{
    let mut done = 0usize;
    while done < text.len() {
        match writer.write(&text[done..]) {
            Ok(count) => done += count,
            Err(stop) => return Err(stop),
        }
    }
    Ok(())
}
