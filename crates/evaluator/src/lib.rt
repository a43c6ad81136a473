// Where places lie, the words that lie there, and the values of expressions, over any store.

#![tactic(auto)]

mod expressions;
mod operators;
mod places;
mod stack;
#[cfg(test)]
mod tests;

pub use expressions::value;
pub use places::{find, find_in, put_word, read_at, record_at, word_at, write_at};
