// The check sum of a record: over each of its numbers in order.
use model::{Batch, Search};

#[derive(Drop)]
struct Sum(u64);

impl Sum {
    // One number more.
    fn add(&mut self, number: u64) {
        self.0 = (self.0 % 4294967296 * 31 + number % 4294967296) % 4294967296;
    }

    fn add_list(&mut self, list: &[u16]) {
        for number in list {
            self.add(u64::from(*number));
        }
    }

    fn add_batch(&mut self, batch: &Batch) {
        self.add(u64::from(batch.n));
        self.add(u64::from(batch.m));
        self.add(u64::from(batch.edition));
        for job in &batch.jobs {
            self.add(u64::from(job.ticks));
            self.add_list(&job.masks);
        }
        for delay in &batch.delays {
            self.add(u64::from(delay.from));
            self.add(u64::from(delay.to));
            self.add(u64::from(raised(delay.weight)));
        }
        for window in &batch.windows {
            self.add(u64::from(window.lined));
            self.add(u64::from(window.earliest));
            self.add(u64::from(window.latest));
        }
        for ticks in &batch.rests {
            self.add(u64::from(*ticks));
        }
    }
}

// The sum over a whole record.
pub fn sum_of(search: &Search) -> u64 {
    let mut sum = Sum(7);
    sum.add_batch(&search.batch);
    for turn in &search.path {
        sum.add(u64::from(turn.clash));
        sum.add(u64::from(turn.side));
    }
    sum.add(best_number(search.best));
    sum.add_list(&search.starts);
    sum.add(u64::from(search.total));
    sum.add(u64::from(search.ended));
    sum.0
}

// A weight as a number from 0 on: 32,768 more.
fn raised(weight: i16) -> u16 {
    weight.cast_unsigned() ^ 0x8000
}

// 0 for none, else one more than the latency. (A match of two cases: `map_or` with a closure would be no plainer.)
fn best_number(best: Option<u16>) -> u64 {
    match best {
        None => 0,
        Some(latency) => u64::from(latency) + 1,
    }
}
