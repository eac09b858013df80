// Best is none, or has a latency up to 43,016 and starts up to 43,000; starts past n are never looked at.
// (n stands beside the starts: C's record holds 24 of them, and any n.)
ghost use Rattle.std.specs.Prelude.{◌≡◌, ◌≤◌};
ghost use Rattle.model.specs.Sound.{sound_best};
ghost use Rattle.soundness.specs.Best.{starts_pass};

// The first n starts are at most 43,000.
fn starts_ok(n: usize, starts: &[u16; 24]) -> bool
    requires { n ≤ 24 }
    ensures { result ≡ starts_pass n starts.now }
{
    starts[..n].iter().all(|start| *start <= 43000)
}

// What soundness asks of best and its starts.
#[tactic(auto, unfolding(model::specs::Sound::sound_best, crate::specs::Best::starts_pass))]
pub fn best_ok(n: usize, best: Option<u16>, starts: &[u16; 24]) -> bool
    requires { n ≤ 24 }
    ensures { result ≡ sound_best n best starts.now }
{
    match best {
        None => true,
        Some(latency) => latency <= 43016 && starts_ok(n, starts),
    }
}
