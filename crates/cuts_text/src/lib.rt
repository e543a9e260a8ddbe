// The text of the program `cuts`: a list of calls on one line, made in order, each shown by its counts and its output.
#![tactic(auto)]

mod asked;
mod made;

pub use asked::{INPUT, is_list, refusal};
pub use made::{Made, TEXT, make};
