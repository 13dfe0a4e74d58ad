//! Lines written and read again.

ghost use Rattle.std.specs.Prelude.{◌≡◌, Ok, IfOk, OnOk};
ghost use Rattle.hm_schedule.specs.LineTexts.{ended};
ghost use Rattle.hm_schedule.specs.Schedules.{IsLawful};

use crate::line::{Line, LineReason, read_line};
use crate::write_line::write_line;
use hm_base::buffer::Text;
use hm_base::memory::NoMemory;

/// Writes a lawful line in place of what `text` held, and reads it again: it is the same line.
pub fn read_back(line: &Line, text: &mut Text) -> Result<Result<Line, LineReason>, NoMemory>
    requires { IsLawful line.now }
    ensures { IfOk result (λ read. read ≡ Ok line.now) }
{
    text.clear();
    write_line(line, text)?;
    let ended = text.as_slice();
    Ok(read_line(&ended[..ended.len() - 1]))
}

/// Reads a line and writes it in place of what `text` held: the same bytes with their end. A refusal says why they are no line.
pub fn write_back(bytes: &[u8], text: &mut Text) -> Result<Result<(), LineReason>, NoMemory>
    ensures { IfOk result (λ written. OnOk written (text.new.items ≡ ended bytes.now)) }
{
    match read_line(bytes) {
        Ok(line) => {
            text.clear();
            write_line(&line, text)?;
            Ok(Ok(()))
        }
        Err(reason) => Ok(Err(reason)),
    }
}
