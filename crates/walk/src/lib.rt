//! No code: the walk of document 01 as one definition, and what is known of it.
#![tactic(auto)]
