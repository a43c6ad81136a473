ghost use Rattle.std.specs.Prelude.{◌≡◌, ◌≤◌, length};

use arrayvec::ArrayVec;
use rules::Frame;

// The work state of a run: all of the machine's state but the book.
#[derive(Drop)]
pub struct Work {
    // the position, before the line of this number
    pub position: u32,
    pub forward: bool,
    // the present record, 0 for none
    pub present: u16,
    // the open locals of all frames, the first opened first, and how many they are; what lies past them means nothing
    // (an array with a count, reset by repeat, as was wanted of the work state)
    pub locals: [i32; 256],
    pub opened: usize,
    // the outermost first
    pub frames: ArrayVec<Frame, 64>,
    ghost few: { opened ≤ 256 },
    ghost wide: { length locals ≡ 256 },
}
