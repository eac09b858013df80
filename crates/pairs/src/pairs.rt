// The listed clashes by pairs of jobs: the distances of a pair as bits of one number, so that starts are held to a pair's clashes at once.
ghost use Rattle.std.specs.Prelude.{◌≡◌, ◌≤◌};
ghost use Rattle.clashes.specs.First.{Known, Near};
ghost use Rattle.pairs.specs.Pairs.{bit_of, Room, OfJobs, Paired, NoneMet};

// The first `count` places have a pair each: pair[q] is its jobs, as i * 32 + j, held[q] the bits of its distances, and end[q] the number of the codes
// up to its last.
// No heap, and three arrays: an array of structs of the three would take 16 bytes a pair of the stack, in place of 12.
#[derive(Clone, Copy)]
pub struct Pairs {
    pub pair: [u16; 276],
    pub held: [u64; 276],
    pub end: [u16; 276],
    pub count: usize,
}

// later - earlier where that is 0 to 63, and else 0, a bit that no pair has: a number and no Option, so that `unmet` looks at each pair's bit alike.
fn bit_of(later: usize, earlier: usize) -> usize
    ensures { result ≡ bit_of later earlier }
{
    let apart = later.saturating_sub(earlier);
    if 63 < apart { 0 } else { apart }
}

// The pairs of the first count codes. Codes past 276 pairs, which 24 jobs do not have, are left out; no answer rests on that.
// The codes come with a count, and not as a slice, so that Paired speaks of a search's codes and not of a part of them.
pub fn find_pairs(codes: &[u16; 1024], count: usize, pairs: &mut Pairs)
    requires count_bound { count ≤ 1024 }
    requires known { Known codes.now count }
    requires near { Near codes.now count }
    requires room { Room pairs.old }
    ensures { Paired codes.now pairs.new count }
{
    pairs.count = 0;
    for k in 0..count {
        let code = codes[k];
        let jobs = code / 64;
        if pairs.count == 0 || pairs.pair[pairs.count - 1] != jobs {
            if pairs.count == 276 {
                return;
            }
            pairs.pair[pairs.count] = jobs;
            pairs.held[pairs.count] = 0;
            pairs.count += 1;
        }
        let at = pairs.count - 1;
        pairs.held[at] |= 2u64 << (code % 64);
        pairs.end[at] = (k + 1) as u16;
    }
}

// A number of codes from the first on that the starts do not meet: those before the first pair that has the bit of its starts.
pub fn unmet(pairs: &Pairs, starts: &[u16; 24]) -> usize
    requires { OfJobs pairs.now }
    ensures { NoneMet pairs.now starts.now result }
{
    let mut low: usize = 0;
    for q in 0..pairs.count {
        let x = usize::from(pairs.pair[q]);
        let at = bit_of(
            usize::from(starts[x % 32]) + 23,
            usize::from(starts[x / 32]),
        );
        if (pairs.held[q] >> at) % 2 == 1 {
            return low;
        }
        low = usize::from(pairs.end[q]);
    }
    low
}
