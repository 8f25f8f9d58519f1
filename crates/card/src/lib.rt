//! The beam card: bytes to a beam, or a fault with the byte place where it lies.
#![tactic(auto)]

mod body;
pub mod fault;
mod layout;
mod load;
mod map;
mod number;
pub mod reader;

pub use fault::{Fault, FaultKind};
pub use reader::read_card;
