// Reservation tables: one widened by the rests of its stations, and whether two meet at a distance.
#![tactic(auto)]

mod meeting;
mod rest;

pub use meeting::tables_meet;
pub use rest::{close_masks, longest_rest, rested, widened};

// The rests of a batch: the longest, and the stations for which two ticks are too close, by the difference of the ticks + 22. (`longest` counts no
// places: where it is above 0, all 45 count.)
#[derive(Clone, Copy)]
pub struct Rests {
    pub longest: usize,
    pub close: [u16; 45],
}

// A table by its places, of which those from low on and before end count. (An array of all places and no slice, which would have to be lent from
// somewhere: no heap.)
#[derive(Clone, Copy)]
pub struct Places {
    pub low: usize,
    pub end: usize,
    pub masks: [u16; 30],
}
