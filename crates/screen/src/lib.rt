// The screen: a store with a script on it, and the list of what was put on and can be taken off again.

#![tactic(auto)]

mod calls;
mod parts;
mod sessions;
mod words;

pub use parts::{Screen, Standing};
pub use sessions::{make_call, play, rehearse};
pub use words::{Call, Reply};
