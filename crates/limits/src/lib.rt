// The limits of a batch's numbers, as tests: the edition (3), n, m and p (4), a delay's jobs (5) and its weight (6), a job's ends (20) and a
// station's rest (21).
#![tactic(auto, unfolding(model::specs::Common::between, model::specs::Window::ends_ok, model::specs::Open::edition_ok, model::specs::Open::counts_ok, model::specs::Open::ticks_ok, model::specs::Open::jobs_ok, model::specs::Open::weight_ok))]

ghost use Rattle.std.specs.Prelude.{◌≡◌, ◌&&◌, leb};
ghost use Rattle.model.specs.Common.{between};
ghost use Rattle.model.specs.Limits.{most_rest};
ghost use Rattle.model.specs.Window.{ends_ok};
ghost use Rattle.model.specs.Open.{edition_ok, counts_ok, ticks_ok, jobs_ok, weight_ok};

use model::Delay;

// The edition is 01 or 02.
pub fn edition_ok(edition: u8) -> bool
    ensures { result ≡ edition_ok edition }
{
    edition == 1 || edition == 2
}

// n is 1 to 24, and m at most 128.
pub fn counts_ok(n: u8, m: u8) -> bool
    ensures { result ≡ counts_ok n m }
{
    (1..=24).contains(&n) && m <= 128
}

// p is 1 to 16.
pub fn ticks_ok(p: u16) -> bool
    ensures { result ≡ ticks_ok p }
{
    (1..=16).contains(&p)
}

// The delay names two different jobs below n.
pub fn jobs_ok(n: u8, q: Delay) -> bool
    ensures { result ≡ jobs_ok n q }
{
    q.from < n && q.to < n && q.from != q.to
}

// The weight is -1,000 to 1,000.
pub fn weight_ok(q: Delay) -> bool
    ensures { result ≡ weight_ok q }
{
    (-1000..=1000).contains(&q.weight)
}

// The delay's jobs and its weight are within their limits.
pub fn delay_ok(n: u8, q: Delay) -> bool
    ensures { result ≡ (jobs_ok n q && weight_ok q) }
{
    jobs_ok(n, q) && weight_ok(q)
}

// The earliest start is at most 20,000, and at most the latest.
pub fn ends_ok(earliest: u16, latest: u16) -> bool
    ensures { result ≡ ends_ok earliest latest }
{
    earliest <= 20000 && earliest <= latest
}

// A station rests at most 7 ticks.
pub fn rest_ok(ticks: u8) -> bool
    ensures { result ≡ leb ticks most_rest }
{
    ticks <= 7
}

// And at least 1, where it has a line.
pub fn rest_line_ok(ticks: u8) -> bool
    ensures { result ≡ between 1 ticks most_rest }
{
    1 <= ticks && rest_ok(ticks)
}
