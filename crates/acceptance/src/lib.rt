//! No code: words, automata, acceptance, and why testing a few lassos decides inclusion.
#![tactic(auto)]
