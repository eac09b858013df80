// Inequalities as the core takes them, those of a batch's delays and of turns, with their weights as unsigned numbers: 1,000 less the weight, so that the
// largest weight has the smallest code.
#![tactic(auto)]

pub mod delays;
pub mod turn;

// From, to, and 1,000 less the weight. They are handed about as lists, in fixed arrays whose first places are lent: no heap.
#[derive(Clone, Copy)]
pub struct Inequality {
    pub from: u8,
    pub to: u8,
    pub code: u16,
}

// What a list's array holds past its end.
pub const BLANK: Inequality = Inequality {
    from: 0,
    to: 0,
    code: 0,
};
