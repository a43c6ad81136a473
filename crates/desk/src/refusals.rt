// The numbers of refusals in words.

use rules::Refusal;
use std::fmt;

// A number that a screen gave for a refusal.
#[derive(Clone, Copy)]
pub(crate) struct Told(pub(crate) u32);

impl fmt::Display for Told {
    fn fmt<W: fmt::Write>(&self, f: &mut fmt::Formatter<W>) -> fmt::Result {
        match Refusal::try_from(self.0) {
            Ok(refusal) => write!(f, "{refusal}"),
            Err(unknown) => write!(f, "{unknown}"),
        }
    }
}
