// The commands of the text, one a line.

use crate::text::Text;
use rules::{Line, Term};

// What lies at the bottom of a store.
#[derive(Clone, Copy)]
pub enum Bottom {
    Words,
    Bytes,
}

// The layers of moves of a store, and what lies below them.
#[derive(Clone, Copy)]
pub struct Shape {
    pub layers: u8,
    pub bottom: Bottom,
}

#[derive(Clone, Copy)]
pub enum Command {
    // the name is the second word of the line
    Session,
    // the cells are the words after the third
    Store(Shape, u32),
    Size,
    Read(u32),
    Write(u32, i32),
    Peel,
    Tables,
    Line(Line),
    Term(Term),
    Check,
    Turn,
    Lines,
    Open,
    Close,
    Load,
    Apply(u32, u32),
    Back,
    Look(u32),
    Book,
    End,
    // there is no more text
    Over,
}

// The command that a line of text writes, or what was expected.
pub(crate) fn parse(line: &str) -> Result<Command, &'static str> {
    let mut text = Text::new(line);
    match text.next() {
        None => Err("a command"),
        Some("store") => store(&mut text),
        Some(name) => {
            let command = named(name, &mut text)?;
            text.finish()?;
            Ok(command)
        }
    }
}

// The words of the text are matched here and below, each with what it means: a table of them would say no more.
fn named(name: &str, text: &mut Text<'_>) -> Result<Command, &'static str> {
    match name {
        "session" => session(text),
        "line" => line_of(text),
        "term" => term_of(text),
        "read" => Ok(Command::Read(text.number()?)),
        "write" => Ok(Command::Write(text.number()?, text.number()?)),
        "look" => Ok(Command::Look(text.number()?)),
        "apply" => Ok(Command::Apply(text.number()?, text.number()?)),
        _ => plain(name),
    }
}

// The commands of one word.
fn plain(name: &str) -> Result<Command, &'static str> {
    match name {
        "size" => Ok(Command::Size),
        "peel" => Ok(Command::Peel),
        "tables" => Ok(Command::Tables),
        "check" => Ok(Command::Check),
        "turn" => Ok(Command::Turn),
        "lines" => Ok(Command::Lines),
        "open" => Ok(Command::Open),
        "close" => Ok(Command::Close),
        "load" => Ok(Command::Load),
        "back" => Ok(Command::Back),
        "book" => Ok(Command::Book),
        "end" => Ok(Command::End),
        _ => Err("a command"),
    }
}

fn session(text: &mut Text<'_>) -> Result<Command, &'static str> {
    match text.next() {
        None | Some("") => Err("a name"),
        Some(_) => Ok(Command::Session),
    }
}

fn store(text: &mut Text<'_>) -> Result<Command, &'static str> {
    let shape = shape_of(text.next().ok_or("a shape")?)?;
    Ok(Command::Store(shape, text.number()?))
}

fn shape_of(word: &str) -> Result<Shape, &'static str> {
    let (layers, bottom) = match word {
        "W" => (0, Bottom::Words),
        "MW" => (1, Bottom::Words),
        "MMW" => (2, Bottom::Words),
        "B" => (0, Bottom::Bytes),
        "MB" => (1, Bottom::Bytes),
        "MMB" => (2, Bottom::Bytes),
        _ => return Err("a shape: W, B, MW, MB, MMW or MMB"),
    };
    Ok(Shape { layers, bottom })
}

fn line_of(text: &mut Text<'_>) -> Result<Command, &'static str> {
    Ok(Command::Line(Line {
        kind: text.number()?,
        x: text.place()?,
        y: text.place()?,
        q: text.number()?,
        first: text.number()?,
        count: u16::from(text.number::<u8>()?),
    }))
}

fn term_of(text: &mut Text<'_>) -> Result<Command, &'static str> {
    Ok(Command::Term(Term {
        kind: text.number()?,
        number: text.number()?,
        first: text.place()?,
        second: text.place()?,
    }))
}
