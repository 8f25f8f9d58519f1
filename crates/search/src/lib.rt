// The search for the lightest cage from stock that an article book passes.
#![tactic(auto)]

pub mod decision; // a chosen cage with its steel, or the number of an impossible beam
pub mod lightest; // the search, and the lightest cage from stock that passes
mod places; // all bars of a face and all ties with their steel in a beam, in the order of the search
