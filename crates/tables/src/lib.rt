// The words of the tables: the one place in code that knows where a word of the links or of a node stands, with question 4, and the walk by
// a signature's bits.
#![tactic(auto)]

pub mod address;
mod form;
pub mod free;
pub mod front;
mod lent;
pub mod nodes;
mod packed;
mod place;
mod reading;
pub mod rows;
mod side;
mod signatures;
pub mod stores;
mod unpacked;
pub mod walk;

pub use form::Form;
pub use lent::TablesMut;
pub use packed::Tables;
pub use place::Place;
pub use rows::Rows;
pub use side::Side;
pub use signatures::{OneWord, Signatures};
pub use unpacked::Unpacked;
