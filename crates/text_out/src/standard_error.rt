//! Standard error: texts and numbers that are written for whoever runs the program.
ghost use Rattle.std.specs.Prelude.{◌≡◌, decimal};
ghost use Rattle.text_out.specs.StandardError.{Says};

use crate::devices::TextOut;
use crate::output::write_all;
use itoa::Buffer;

/// Writes a text on standard error. Where that fails nothing can be said.
pub fn write_stderr<E: TextOut>(text: &str, errors: &mut E)
    ensures { Says (record { adds = E.adds; failures = E.failures })
        text.now errors.old errors.new }
{
    if !text.is_empty() {
        let _ = write_all(text.as_bytes(), errors);
    }
}

/// Writes a number in decimal.
pub fn write_number<E: TextOut>(number: u64, errors: &mut E)
    ensures { Says (record { adds = E.adds; failures = E.failures })
        (decimal number) errors.old errors.new }
{
    let mut digits = Buffer::new();
    write_stderr(digits.format(number), errors);
}
