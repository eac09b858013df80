// The lines of both texts but for the job line, which has a loop, and the further lines.
// (Each line is its own three or four calls: one function for all would take the bytes as a list, which each caller would first have to put together.
// The numbers of a line stand apart, as in the definitions `header_line` and `head_line`.)
ghost use Rattle.std.specs.Prelude.{◌≡◌, [], ◌∷◌, ◌+◌, ◌≤◌, length};
ghost use Rattle.model.specs.Line.{digits_of};
ghost use Rattle.model.specs.Format.{header_line, delay_line};
ghost use Rattle.lines.specs.Write.{overwritten};
ghost use Rattle.frame_put.specs.Lines.{head_line, start_line, no_plan_line};

use model::Delay;

// Two bytes, with which most lines open.
pub fn put_pair(buffer: &mut [u8], at: usize, first: u8, second: u8) -> usize
    requires { at + 4 ≤ length buffer.old }
    ensures { (result ≡ at + 4) × (buffer.new ≡ overwritten buffer.old at (digits_of (first ∷ second ∷ []))) }
{
    let next = lines::put_byte(buffer, at, first);
    lines::put_byte(buffer, next, second)
}

// The header of a batch text.
pub fn put_header(buffer: &mut [u8], at: usize, edition: u8, n: u8, m: u8) -> usize
    requires { at + 9 ≤ length buffer.old }
    ensures { (result ≡ at + 9) × (buffer.new ≡ overwritten buffer.old at (header_line edition n m)) }
{
    let counts = put_pair(buffer, at, 0xA0, edition);
    let end = put_pair(buffer, counts, n, m);
    lines::put_end(buffer, end)
}

// A delay, its weight in two's complement.
pub fn put_delay(buffer: &mut [u8], at: usize, delay: Delay) -> usize
    requires { at + 11 ≤ length buffer.old }
    ensures { (result ≡ at + 11) × (buffer.new ≡ overwritten buffer.old at (delay_line delay)) }
{
    let to = put_pair(buffer, at, 0xA2, delay.from);
    let number = lines::put_byte(buffer, to, delay.to);
    let end = lines::put_two(buffer, number, delay.weight.cast_unsigned());
    lines::put_end(buffer, end)
}

// The first line of a plan.
pub fn put_head(buffer: &mut [u8], at: usize, n: u8, latency: u16, total: u32) -> usize
    requires { at + 19 ≤ length buffer.old }
    ensures { (result ≡ at + 19) × (buffer.new ≡ overwritten buffer.old at (head_line n latency total)) }
{
    let jobs = put_pair(buffer, at, 0xB0, 0x01);
    let number = lines::put_byte(buffer, jobs, n);
    let nodes = lines::put_two(buffer, number, latency);
    let end = lines::put_four(buffer, nodes, total);
    lines::put_end(buffer, end)
}

// A job's start.
pub fn put_start(buffer: &mut [u8], at: usize, job: u8, start: u16) -> usize
    requires { at + 9 ≤ length buffer.old }
    ensures { (result ≡ at + 9) × (buffer.new ≡ overwritten buffer.old at (start_line job start)) }
{
    let number = put_pair(buffer, at, 0xB1, job);
    let end = lines::put_two(buffer, number, start);
    lines::put_end(buffer, end)
}

// No plan.
pub fn put_no_plan(buffer: &mut [u8], at: usize, total: u32) -> usize
    requires { at + 11 ≤ length buffer.old }
    ensures { (result ≡ at + 11) × (buffer.new ≡ overwritten buffer.old at (no_plan_line total)) }
{
    let number = lines::put_byte(buffer, at, 0xB2);
    let end = lines::put_four(buffer, number, total);
    lines::put_end(buffer, end)
}
