// Writing the batch text: refusals 12 and 16, or the text at the buffer's front and its length.
ghost use Rattle.std.specs.Prelude.{◌≡◌};
ghost use Rattle.model.specs.Common.{accept};
ghost use Rattle.model.specs.Format.{batch_file};
ghost use Rattle.model.specs.Text.{batch_text, written};
ghost use Rattle.writing.specs.Bounded.{Bounded};

use crate::batch::{batch_length, put_batch};
use model::{Batch, Refusal, Search};

// The batch text of a record.
pub fn write_batch(search: Search, buffer: &mut [u8]) -> Result<usize, Refusal>
    ensures { (result, buffer.new) ≡ written (batch_text search) buffer.old }
{
    if !soundness::is_sound(search) {
        return Err(Refusal::Unsound);
    }
    write_bounded(search.batch, buffer)
}

// The text of a batch whose counts stay within its arrays.
fn write_bounded(batch: Batch, buffer: &mut [u8]) -> Result<usize, Refusal>
    requires { Bounded batch }
    ensures { (result, buffer.new) ≡ written (accept (batch_file batch)) buffer.old }
{
    let size = batch_length(batch);
    if buffer.len() < size {
        return Err(Refusal::ShortBuffer);
    }
    Ok(put_batch(buffer, batch))
}
