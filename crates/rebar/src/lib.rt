//! The vocabulary: what beams and cages are, and the steel of a cage.
#![tactic(auto)]

pub mod beam;
pub mod cage;
mod marks;
pub mod materials;
pub mod member;
pub mod section;

pub use beam::Beam;
pub use cage::{Bars, Cage, Ties};
pub use materials::Materials;
pub use member::Member;
pub use section::Section;
