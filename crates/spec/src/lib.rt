// The types that the definitions of specs/ speak of: triples as words (document 01, "Terms and triples"), and what updates, questions and
// deliveries answer.
#![tactic(auto)]

// A subject, a property and an object, as words.
#[derive(Clone, Copy)]
pub struct Triple {
    pub subject: u32,
    pub property: u32,
    pub object: u32,
}

// The two kinds of updates.
#[derive(Clone, Copy)]
pub enum Change {
    Addition,
    Withdrawal,
}

// The answer of an update.
#[derive(Clone, Copy)]
pub enum Answer {
    Applied,
    Idle,
    Refused(u32),
}

// The reply of what fills a lent output: the number of rows, or of bytes, that it gave, or the number of the question that refused it.
pub type Reply = Result<usize, u32>;

// How many entries were applied, idle and refused.
#[derive(Clone, Copy)]
pub struct Tally {
    pub applied: u32,
    pub idle: u32,
    pub refused: u32,
}

// The result of a delivery: 0 or the number that refused the whole, the delivery number, and the tallies.
#[derive(Clone, Copy)]
pub struct Delivered {
    pub refusal: u32,
    pub number: u32,
    pub applied: u32,
    pub idle: u32,
    pub refused: u32,
}
