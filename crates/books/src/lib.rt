// Article books: what they answer to a beam and a cage.
#![tactic(auto)]

pub mod approved; // the book of approved rows, articles 60 and 61
pub mod article; // an article that does not hold, and how articles are asked
pub mod book; // the trait of article books
mod face; // rows, depths and force of a face's bars
mod flexure; // what a face bears in bending, and its least steel
pub mod frame; // the frame layer, articles 21 to 28
pub mod general; // the general book, articles 1 to 13
pub mod pile; // the pile of the product: the frame layer over the general book
mod shear; // what a section bears in shear
pub mod yard; // the yard layer, articles 41 to 43
