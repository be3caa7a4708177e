//! No code: what the contract of the entry point gives, on document 01's samples and at large.
#![tactic(auto)]
