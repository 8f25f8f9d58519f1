// The sheet: places for beams, the stock of marks, and the calls that change them.
#![tactic(auto)]

pub mod call; // the calls of a sheet with what they answer
mod change; // a mark that comes in or goes out
mod entry; // a beam on the sheet with its decision
pub mod place; // the places, by number
pub mod reading; // what is read of a place
pub mod refusal; // why a call is refused
pub mod run; // all calls of a list, one after the other, on a sheet just opened
pub mod sheet; // a sheet on a pile of article books, and its calls
mod table; // what the places hold, the stock and the count
