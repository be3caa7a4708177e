//! Numbers as sets of bits: members, rows of pairs, and packed entries.
#![tactic(auto)]

pub mod entries;
pub mod members;
pub mod rows;
