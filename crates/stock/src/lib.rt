//! The stock of bar marks.
#![tactic(auto)]

pub mod kind;
pub mod stock;
pub mod stock_mark;

pub use kind::{Kind, UnknownKind};
pub use stock::Stock;
pub use stock_mark::StockMark;
