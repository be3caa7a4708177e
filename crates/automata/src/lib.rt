//! A loaded automaton: a table of sets, by letter and then by state, beside a head; what it does to sets and contexts.
#![tactic(auto)]

pub mod contexts;
pub mod relations;
pub mod tables;

// The initial state, the accepting set, and one more than the largest state number that a record names.
#[derive(Clone, Copy)]
pub struct Head {
    pub start: u8,
    pub accepting: u16,
    pub states: u8,
}

// A loaded automaton: the sets that its letters lead to, by letter and then by state, and its head.
#[derive(Clone, Copy)]
pub struct Automaton<T> {
    pub table: T,
    pub head: Head,
}

// The two of a question: a model of up to sixteen states, and a rule of up to eight.
pub type Model = Automaton<[[u16; 16]; 16]>;

pub type Rule = Automaton<[[u8; 8]; 16]>;

// What a word leads to from each state: the pairs of states that it leads from and to, and those of them that it leads through acceptance.
#[derive(Clone, Copy)]
pub struct Context<R> {
    pub reach: R,
    pub through: R,
}
