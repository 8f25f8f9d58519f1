//! The console: orders in, byte by byte, a line as soon as an order is whole, at the end the bill.
#![tactic(auto)]

mod billing;
pub mod console;
pub mod line;
mod order;
pub mod page;
pub mod stream;

pub use console::{Console, ENDING};
pub use line::LONGEST_LINE;
pub use page::{PageTooShort, answer_on_page};
pub use stream::answer_orders;
