use rules::{Line, Term};

// A call on a screen, with its arguments.
#[derive(Clone, Copy)]
pub enum Call<'a> {
    Load(&'a [Line], &'a [Term]),
    Apply(u32, u32),
    Back,
    Look(u32),
}

// What a screen answers: refusal, line and steps, or a refusal and a word. They are the plain numbers that its calls give.
#[derive(Clone, Copy, Debug, PartialEq, Eq)]
pub enum Reply {
    Numbers(u32, u32, u32),
    Word(u32, i32),
}
