//! What acts on a beam.
#![tactic(auto)]

pub mod actions;
pub mod loads;

pub use actions::Actions;
pub use loads::{Case, Force, LoadCase, Loads, is_moderate};
