// The worked examples of the rules, as one theorem about the definitions that the contracts of the crates below cite.
#![tactic(auto)]

pub mod examples; // how many worked examples there are, and that they hold
