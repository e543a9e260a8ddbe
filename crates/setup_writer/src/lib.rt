// Writing a customer's setup file into a lent output.
#![tactic(auto)]

mod layout;
mod parts;
mod pieces;
mod writer;

pub use writer::write;
