// The bending bill on a caller's page.
#![tactic(auto)]

pub mod bill; // a bill begun, its lines, its total, or torn
mod line; // the text of a line and of the total
mod page; // bytes put on the page
pub mod refusal; // why a step is refused
