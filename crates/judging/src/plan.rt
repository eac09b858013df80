// Whether starts are a valid plan of a batch, and their latency. A start may be any two bytes, and nothing here wraps.
// (That the batch is within its limits stands in the contracts and in no type: the definition `open_file`, which opening promises, yields a plain Batch.)
ghost use Rattle.std.specs.Prelude.{◌≡◌, true, ◌&&◌, ◌+◌, ◌<◌, get_or, leb, eqb};
ghost use Rattle.model.specs.Common.{between, all, is_some};
ghost use Rattle.model.specs.Batch.{delays_of};
ghost use Rattle.model.specs.Plan.{latency};
ghost use Rattle.model.specs.Clash.{clashes};
ghost use Rattle.model.specs.Search.{first_met};
ghost use Rattle.model.specs.Format.{Within};
ghost use Rattle.model.specs.Open.{few_clashes};
ghost use Rattle.model.specs.Judge.{keeps, keeps_ends, valid};

use clashes::{Clashes, first_met, list_clashes};
use model::{Batch, Window};
use times::stays::stays_of;
use weights::delays::read_delays;

// t_j - t_i is at least w, as t_i + 1,000 is at most t_j + (1,000 - w).
fn is_kept(from: u8, to: u8, code: u16, starts: &[u16; 24]) -> bool
    requires { (from < 24) × (to < 24) }
    ensures { result ≡ leb (get_or starts.now from 0 + 1000) (get_or starts.now to 0 + code) }
{
    let start_from = starts[usize::from(from)];
    let start_to = starts[usize::from(to)];
    usize::from(start_from) + 1000 <= usize::from(start_to) + usize::from(code)
}

// Each delay is kept. (`all` over the numbers would need their bound in its closure: no plainer, here and in keeps_ends.)
fn keeps_delays(batch: &Batch, starts: &[u16; 24]) -> bool
    requires { Within batch.now }
    ensures { result ≡ all (keeps starts.now) (delays_of batch.now) }
{
    let delays = read_delays(*batch).unwrap();
    for q in &delays[..usize::from(batch.m)] {
        if !is_kept(q.from, q.to, q.code, starts) {
            return false;
        }
    }
    true
}

// A start is within a job's ends. (As a range with `contains` it would be as long.)
fn is_within(window: Window, start: u16) -> bool
    ensures { result ≡ between window.earliest start window.latest }
{
    window.earliest <= start && start <= window.latest
}

// Each start is within its job's ends. The batch is handed on by value: of one that is lent, the proof does not know how many windows there are.
fn keeps_ends(batch: Batch, starts: &[u16; 24]) -> bool
    requires { Within batch }
    ensures { result ≡ keeps_ends batch starts.now }
{
    for i in 0..usize::from(batch.n) {
        if !is_within(batch.windows[i], starts[i]) {
            return false;
        }
    }
    true
}

// Some clash is met.
fn meets_clash(batch: &Batch, starts: &[u16; 24]) -> bool
    requires { Within batch.now × (few_clashes batch.now ≡ true) }
    ensures { result ≡ is_some (first_met (clashes batch.now) starts.now 0) }
{
    let mut clashes = Clashes {
        count: 0,
        codes: [0; 1024],
    };
    list_clashes(batch, &mut clashes);
    first_met(&clashes, 0, starts).is_some()
}

// The starts keep every delay and every job's ends, and no two jobs hold one station in one tick.
fn is_valid(batch: &Batch, starts: &[u16; 24]) -> bool
    requires { Within batch.now × (few_clashes batch.now ≡ true) }
    ensures { result ≡ valid batch.now starts.now }
{
    keeps_delays(batch, starts) && keeps_ends(*batch, starts) && !meets_clash(batch, starts)
}

// The largest finish.
fn latency_of(batch: &Batch, starts: &[u16; 24]) -> usize
    requires { Within batch.now }
    ensures { result ≡ latency batch.now starts.now }
{
    let stays = stays_of(*batch);
    let mut latest: usize = 0;
    for i in 0..usize::from(batch.n) {
        let finish = usize::from(starts[i]) + usize::from(stays[i]);
        latest = latest.max(finish);
    }
    latest
}

// The starts are a valid plan, and this is its latency.
pub fn is_right(batch: &Batch, starts: &[u16; 24], claimed: u16) -> bool
    requires { Within batch.now × (few_clashes batch.now ≡ true) }
    ensures { result ≡ (valid batch.now starts.now && eqb (latency batch.now starts.now) claimed) }
{
    is_valid(batch, starts) && latency_of(batch, starts) == usize::from(claimed)
}
