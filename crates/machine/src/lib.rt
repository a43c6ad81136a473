// The machine of a checked program: one step, over any store.
// Store and work state stay two parameters: in one struct that holds the store by `&mut`, each contract would also have to say that it is
// still the same store that is lent.

#![tactic(auto)]

mod calls;
mod changes;
mod due;
mod records;
mod references;
mod steps;

pub use steps::step;
