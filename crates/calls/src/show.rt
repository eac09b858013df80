// A record as it is printed: its counts, best, starts, the path's turns and the check sum.
use crate::calling::put_list;
use crate::sum::sum_of;
use crate::text::Output;
use model::{EMPTY, Search};
use std::fmt::Write;

pub fn show(search: &Search, out: &mut Output) {
    put_head(search, out);
    put_list(out, &search.starts);
    let _ = write!(out, " :");
    // The path's places up to the first empty one.
    for turn in &search.path {
        if *turn == EMPTY {
            break;
        }
        let _ = write!(out, " {}.{}", turn.clash, turn.side);
    }
    let _ = write!(out, " : {}", sum_of(search));
}

// The counts, the total, whether the search has ended, and best's latency, or `-` for none.
fn put_head(search: &Search, out: &mut Output) {
    let ended = u8::from(search.ended);
    let _ = write!(
        out,
        "D {} {} {} {ended}",
        search.batch.n, search.batch.m, search.total
    );
    let _ = match search.best {
        None => write!(out, " - :"),
        Some(latency) => write!(out, " {latency} :"),
    };
}
