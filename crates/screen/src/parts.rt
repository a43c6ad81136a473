use arrayvec::ArrayVec;
use script::program::Program;

// As many methods may stand.
pub(crate) const CAPACITY: usize = 64;

// A method that stands, and the steps in which it finished.
#[derive(Clone, Copy, Debug, PartialEq, Eq, Default)]
pub struct Standing {
    pub method: u32,
    pub steps: u32,
}

// A store that was taken, the script on it, and the standing list, the first that joined first.
#[derive(Drop)]
pub struct Screen<S> {
    pub(crate) store: S,
    pub(crate) program: Program,
    pub(crate) standing: ArrayVec<Standing, CAPACITY>,
}
