// The data of a script, the refusals, and the worked figures as a theorem about the rules in specs/.

#![tactic(auto)]

ghost use Rattle.rules.specs.Figures.{Figures, Edges};

mod building;
mod numbers;
mod telling;
#[cfg(test)]
mod tests;

pub use numbers::NoRefusal;

// A place that a line or a term names. The index is whatever the caller wrote; the check judges it.
// No place is one of the six sorts, written `-` and counted in a digest as the others are, so it is no `Option` of the other five.
#[derive(Clone, Copy, Debug, PartialEq, Eq, Default)]
pub enum Place {
    #[default]
    None,
    // number mark
    M(u8),
    // reference mark
    R(u8),
    // number field of the present record
    N(u8),
    // reference field of the present record
    F(u8),
    // local
    V(u8),
}

// A line of a script. Its fields are whatever the caller wrote; the check judges them. So the kind is a number: it may be that of none.
#[derive(Clone, Copy, Debug, PartialEq, Eq, Default)]
pub struct Line {
    pub kind: u8,
    pub x: Place,
    pub y: Place,
    // a method's number
    pub q: u8,
    // the expression: its first term and how many terms it has
    pub first: u16,
    pub count: u16,
}

// A term of a postfix expression. Its kind, too, is whatever number the caller wrote.
#[derive(Clone, Copy, Debug, PartialEq, Eq, Default)]
pub struct Term {
    pub kind: u8,
    pub number: i32,
    pub first: Place,
    pub second: Place,
}

// What stands past the last line of a script: a line of no kind.
pub const NO_LINE: Line = Line {
    kind: 18,
    x: Place::None,
    y: Place::None,
    q: 0,
    first: 0,
    count: 0,
};

// The kinds of lines, in the order of their numbers.
#[derive(Clone, Copy, Debug, PartialEq, Eq)]
pub enum Kind {
    Begin,
    End,
    Add,
    Subtract,
    If,
    Fi,
    From,
    Until,
    Local,
    Delocal,
    New,
    Delete,
    Copy,
    Uncopy,
    Xor,
    Swap,
    Call,
    Uncall,
}

// What a term is.
#[derive(Clone, Copy, Debug, PartialEq, Eq)]
pub enum TermKind {
    Number,
    // what a number place holds
    Word,
    // whether a reference place names no record
    Nil,
    // whether two reference places are equal
    Same,
    Operator(Operator),
}

// The operators of expressions, in the order of their numbers as kinds of terms.
#[derive(Clone, Copy, Debug, PartialEq, Eq)]
pub enum Operator {
    Plus = 4,
    Minus = 5,
    Xor = 6,
    Times = 7,
    Over = 8,
    Remainder = 9,
    BitAnd = 10,
    BitOr = 11,
    And = 12,
    Or = 13,
    Less = 14,
    Greater = 15,
    Equal = 16,
    NotEqual = 17,
    AtMost = 18,
    AtLeast = 19,
}

// Why a call or a step refuses.
#[derive(Clone, Copy, Debug, PartialEq, Eq)]
pub enum Refusal {
    // a table is too long
    TooLong = 1,
    // unknown kind, place or method number, or an unused field filled
    Unknown = 2,
    // pairs do not nest
    Unpaired = 3,
    // a method is doubled or missing
    WrongMethod = 4,
    // malformed expression, place of the wrong sort or missing, local not open, or a seventeenth local
    Malformed = 5,
    // x named in its own expression, or copy or uncopy with x and y alike
    SelfNamed = 6,
    // the store holds no book
    NoBook = 7,
    // no such word in the book
    NoSuchWord = 9,
    TestFailed = 10,
    ZeroDivisor = 11,
    NoRecord = 12,
    // a place or a record is not clear, or two references are not equal
    NotClear = 13,
    // the free list is empty
    NoFree = 14,
    // the first free record cannot be taken
    FreeUnfit = 15,
    // the record was changed under a call
    Changed = 16,
    // no room for a frame or a local
    TooDeep = 17,
    OutOfBudget = 18,
    NoSuchMethod = 20,
    // as many methods stand as may
    ListFull = 21,
    NothingStands = 22,
    SomethingStands = 23,
}

// What a call keeps: its line, the record that was present before it, and the count of open locals.
// A record is a number with 0 for none, here and wherever one is present, since that is the word that a reference holds.
#[derive(Clone, Copy, Debug, PartialEq, Eq, Default)]
pub struct Frame {
    pub line: u16,
    pub former: u16,
    pub count: u16,
}

// Where a place was found: a word of the book or an open local.
#[derive(Clone, Copy, Debug, PartialEq, Eq)]
pub enum Spot {
    InBook(u32),
    InLocals(usize),
}

// Every worked figure of the list holds of the rules.
pub fn figures_hold() -> u8
    ensures { Figures }
{
    0
}

// So do figures that a likely error would change.
pub fn edges_hold() -> u8
    ensures { Edges }
{
    0
}
