//! No code: the growth of a table stated once, with stems and periods as such tables. Growing a lent table answers how many entries it ended with, or that it is full.
#![tactic(auto)]

// The table lacks room for an entry that must be appended.
#[derive(Clone, Copy)]
pub struct Full;
