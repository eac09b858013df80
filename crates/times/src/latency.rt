// The latency of starts, the largest sum of a start and a stay, as a value that starts raise. Past n both arrays hold 0, so that all 24 places may be taken: a
// loop of known length is one that the compiler takes a whole row at a time. How small the numbers are is asked in the contracts, and not kept by a type around
// an array: it would be no plainer, since the starts' bound differs from function to function, and the stays' is one fact of one array.
ghost use Rattle.std.specs.Prelude.{◌≡◌};
ghost use Rattle.times.specs.Fill.{Small};
ghost use Rattle.times.specs.Latency.{raised_by};

// The largest of a latency and the finishes of these starts.
pub fn raised_latency(latency: u16, stays: &[u8; 24], starts: &[u16; 24]) -> u16
    requires { Small stays.now 16 × Small starts.now 44016 }
    ensures { result ≡ raised_by stays.now starts.now latency }
{
    let mut latest = latency;
    for i in 0..24 {
        latest = latest.max(starts[i] + u16::from(stays[i]));
    }
    latest
}
