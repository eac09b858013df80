// The first clash of a list of codes that starts meet: a scan that stops at the first, with no signed number.
ghost use Rattle.std.specs.Prelude.{◌≡◌, ◌≤◌};
ghost use Rattle.model.specs.Search.{met};
ghost use Rattle.clashes.specs.Code.{clash_of};
ghost use Rattle.clashes.specs.First.{first_code, Known, Named, Unmet};

use crate::Clashes;

// t_j - t_i = d for the clash of a code, as t_j + 22 = t_i + (d + 22).
fn is_met(code: u16, starts: &[u16; 24]) -> bool
    requires { Named code }
    ensures { result ≡ met starts.now (clash_of code) }
{
    let x = usize::from(code);
    usize::from(starts[x / 64 % 32]) + 22 == usize::from(starts[x / 2048]) + x % 64
}

// The number of the first clash, of those that are listed, that is met. None below low is. (`position` over the codes from low on would need low
// added to its answer: no plainer.)
pub fn first_met(clashes: &Clashes, low: usize, starts: &[u16; 24]) -> Option<u16>
    requires low_le_count { (low ≤ clashes.now.count) × (clashes.now.count ≤ 1024) }
    requires known { Known clashes.now.codes clashes.now.count }
    requires unmet { Unmet clashes.now.codes starts.now low }
    ensures { result ≡ first_code clashes.now.codes clashes.now.count starts.now }
{
    for k in low..clashes.count {
        if is_met(clashes.codes[k], starts) {
            return Some(k as u16);
        }
    }
    None
}
