// The tables of document 01's worked example, for programs with stored output.
#![tactic(auto)]

// Its statements.
pub const STATEMENTS: [u32; 16] = [5, 16, 2, 17, 17, 2, 18, 19, 3, 20, 20, 4, 17, 20, 5, 16];

// Its facts.
pub const FACTS: [u32; 7] = [2, 32, 1, 16, 32, 19, 33];

// Its kept facts.
pub const KEPT: [u32; 25] = [
    8, 32, 1, 16, 32, 1, 17, 32, 1, 18, 32, 19, 33, 32, 20, 33, 33, 1, 16, 33, 1, 17, 33, 1, 18,
];
