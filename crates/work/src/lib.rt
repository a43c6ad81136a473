// The work state of a run: where a run starts, whose turn it is, whether it is finished, and how it is turned round.

#![tactic(auto)]

mod parts;
mod starts;
mod table;
mod turns;

pub use parts::Work;
pub use starts::{start, turn_round};
pub use table::{entry, line_at};
pub use turns::{finished, turn};
