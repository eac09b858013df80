// The clash list of a batch, each clash as one number, and the first listed clash that starts meet.
// Callers list the clashes of a batch once, and ask for the first that is met as often as they have starts.
#![tactic(auto)]

mod first;
mod list;

pub use first::first_met;
pub use list::list_clashes;

// The clashes of a batch: how many there are, and the first 1,024 as codes i * 2048 + j * 64 + (d + 22). Places past them are 0.
// No heap: an array of the limit's size. Its length cannot say the count, which goes on past what is stored.
#[derive(Clone, Copy)]
pub struct Clashes {
    pub count: usize,
    pub codes: [u16; 1024],
}
