// Scripts: the check, turning, and the checked program that the machine runs.

#![tactic(auto)]

pub mod building;
pub mod checking;
mod judging;
mod methods;
mod openers;
mod pairs;
pub mod program;
#[cfg(test)]
mod tests;
pub mod turning;
