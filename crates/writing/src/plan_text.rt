// Writing the plan text: refusals 12, 15 and 16, or the text at the buffer's front and its length.
ghost use Rattle.std.specs.Prelude.{◌≡◌, ◌≤◌};
ghost use Rattle.model.specs.Common.{accept};
ghost use Rattle.model.specs.Limits.{most_jobs};
ghost use Rattle.model.specs.Text.{plan_lines, plan_text, written};
ghost use Rattle.frame_put.specs.Lines.{no_plan_line};
ghost use Rattle.writing.specs.Plan.{found_lines};

use crate::plan::put_plan;
use frame_put::put_no_plan;
use model::{Refusal, Search};

// The plan text of a record.
pub fn write_plan(search: Search, buffer: &mut [u8]) -> Result<usize, Refusal>
    ensures { (result, buffer.new) ≡ written (plan_text search) buffer.old }
{
    if !soundness::is_sound(search) {
        return Err(Refusal::Unsound);
    }
    if !search.ended {
        return Err(Refusal::Unended);
    }
    write_ended(
        search.best,
        search.batch.n,
        search.starts,
        search.total,
        buffer,
    )
}

// The text of a search that has ended.
fn write_ended(
    best: Option<u16>,
    n: u8,
    starts: [u16; 24],
    total: u32,
    buffer: &mut [u8],
) -> Result<usize, Refusal>
    requires { n ≤ most_jobs }
    ensures { (result, buffer.new) ≡ written (accept (plan_lines best n starts total)) buffer.old }
{
    match best {
        None => write_no_plan(total, buffer),
        Some(latency) => write_found(n, latency, starts, total, buffer),
    }
}

// The text where there is a plan.
fn write_found(
    n: u8,
    latency: u16,
    starts: [u16; 24],
    total: u32,
    buffer: &mut [u8],
) -> Result<usize, Refusal>
    requires { n ≤ most_jobs }
    ensures { (result, buffer.new) ≡ written (accept (found_lines n latency starts total)) buffer.old }
{
    let size = 19 + 9 * usize::from(n);
    if buffer.len() < size {
        return Err(Refusal::ShortBuffer);
    }
    Ok(put_plan(buffer, n, latency, starts, total))
}

// The text where there is none.
fn write_no_plan(total: u32, buffer: &mut [u8]) -> Result<usize, Refusal>
    ensures { (result, buffer.new) ≡ written (accept (no_plan_line total)) buffer.old }
{
    if buffer.len() < 11 {
        return Err(Refusal::ShortBuffer);
    }
    Ok(put_no_plan(buffer, 0, total))
}
