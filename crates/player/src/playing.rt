// Sessions: commands on no store, on a store, and on the screen that has taken it.

use crate::commands::{Bottom, Command, Shape};
use crate::desk::Desk;
use crate::stops::Stop;
use crate::stores::fill;
use crate::tables::{begin, finish, on_tables};
use screen::Screen;
use session::{empty_digest, with_word};
use std::alloc::Global;
use std::io::{BufRead, Write};
use store::{Bytes, Moves, Store, Words};

// Plays every session of the text.
pub(crate) fn play<R: BufRead, W: Write>(desk: &mut Desk<R, W>, heap: Global) -> Result<(), Stop> {
    let mut words = Vec::new(heap);
    let mut bytes = Vec::new(heap);
    // every loop ends, though the text has no bound of its own
    for _ in 0..u64::MAX {
        match desk.command()? {
            Command::Over => break,
            Command::Session => begin(desk)?,
            Command::End => finish(desk)?,
            Command::Store(shape, n) => on_new_store(desk, shape, n, &mut words, &mut bytes)?,
            command => on_tables(desk, command)?,
        }
    }
    Ok(())
}

// Makes a store, and plays on until it is let go.
fn on_new_store<R: BufRead, W: Write>(
    desk: &mut Desk<R, W>,
    shape: Shape,
    n: u32,
    words: &mut Vec<i32>,
    bytes: &mut Vec<u8>,
) -> Result<(), Stop> {
    if !desk.running {
        return Err(desk.stop("a session to be started"));
    }
    match shape.bottom {
        Bottom::Words => {
            fill(desk, words, n, 0)?;
            under_layers(desk, shape.layers, Words::new(words.as_mut_slice()))
        }
        Bottom::Bytes => {
            fill(desk, bytes, n, 0)?;
            under_layers(desk, shape.layers, Bytes::new(bytes.as_mut_slice()))
        }
    }
}

// Plays with none, one or two layers of moves over a store. Peeling off a layer leaves a store of another type, so each depth has a
// function of its own; one generic function cannot call itself at a smaller type without end.
fn under_layers<R: BufRead, W: Write, S: Store + Drop>(
    desk: &mut Desk<R, W>,
    layers: u8,
    bottom: S,
) -> Result<(), Stop> {
    match layers {
        0 => on_bottom(desk, bottom),
        1 => on_layer(desk, Moves::over(bottom)),
        _ => on_layers(desk, Moves::over(Moves::over(bottom))),
    }
}

fn on_layers<R: BufRead, W: Write, S: Store + Drop>(
    desk: &mut Desk<R, W>,
    top: Moves<Moves<S>>,
) -> Result<(), Stop> {
    match on_store(desk, top)? {
        Some(top) => on_layer(desk, top.into_below()),
        None => Ok(()),
    }
}

fn on_layer<R: BufRead, W: Write, S: Store + Drop>(
    desk: &mut Desk<R, W>,
    top: Moves<S>,
) -> Result<(), Stop> {
    match on_store(desk, top)? {
        Some(top) => on_bottom(desk, top.into_below()),
        None => Ok(()),
    }
}

fn on_bottom<R: BufRead, W: Write, S: Store + Drop>(
    desk: &mut Desk<R, W>,
    store: S,
) -> Result<(), Stop> {
    match on_store(desk, store)? {
        Some(_) => Err(desk.stop("a store with a layer of moves")),
        None => Ok(()),
    }
}

// Plays on a store. It hands the store over where its top layer is to be peeled off.
fn on_store<R: BufRead, W: Write, S: Store + Drop>(
    desk: &mut Desk<R, W>,
    taken: S,
) -> Result<Option<S>, Stop> {
    let mut store = taken;
    // every loop ends, though the text has no bound of its own
    for _ in 0..u64::MAX {
        let command = desk.command()?;
        match command {
            Command::Over | Command::Session | Command::End | Command::Store(_, _) => {
                desk.put_back(command);
                return Ok(None);
            }
            Command::Peel => return Ok(Some(store)),
            Command::Open => store = on_screen(desk, store)?,
            _ => call_store(desk, &mut store, command)?,
        }
    }
    Ok(None)
}

// Carries out a command on a store.
fn call_store<R: BufRead, W: Write, S: Store>(
    desk: &mut Desk<R, W>,
    store: &mut S,
    command: Command,
) -> Result<(), Stop> {
    match command {
        Command::Size => {
            let size = store.size();
            writeln!(desk.out, "size {size}")?;
        }
        Command::Read(w) => {
            let (refusal, word) = match store.read(w) {
                Ok(word) => (0, word),
                Err(refusal) => (u32::from(refusal), 0),
            };
            writeln!(desk.out, "read {refusal} {word}")?;
        }
        Command::Write(w, v) => {
            let refusal = store.write(w, v).err().map_or(0, u32::from);
            writeln!(desk.out, "write {refusal}")?;
        }
        Command::Book => {
            let size = store.size();
            let digest = store_digest(store);
            writeln!(desk.out, "book {size} {digest:016x}")?;
        }
        _ => on_tables(desk, command)?,
    }
    Ok(())
}

// The digest of the words of a store.
fn store_digest<S: Store>(store: &S) -> u64 {
    (0..store.size())
        .filter_map(|w| store.read(w).ok())
        .fold(empty_digest(), with_word)
}

// Opens a screen on a store, plays on it, and hands the store over when it is closed.
fn on_screen<R: BufRead, W: Write, S: Store + Drop>(
    desk: &mut Desk<R, W>,
    store: S,
) -> Result<S, Stop> {
    let mut screen = Screen::open(store);
    // every loop ends, though the text has no bound of its own
    for _ in 0..u64::MAX {
        let command = desk.command()?;
        match command {
            Command::Close => break,
            Command::Over | Command::End | Command::Store(_, _) => {
                desk.put_back(command);
                break;
            }
            _ => call_screen(desk, &mut screen, command)?,
        }
    }
    Ok(screen.close())
}

// Carries out a command on a screen.
fn call_screen<R: BufRead, W: Write, S: Store>(
    desk: &mut Desk<R, W>,
    screen: &mut Screen<S>,
    command: Command,
) -> Result<(), Stop> {
    match command {
        Command::Load => {
            let answer = screen.load(desk.lines.as_slice(), desk.terms.as_slice());
            tell(desk, "load", answer)
        }
        Command::Apply(q, budget) => tell(desk, "apply", screen.apply(q, budget)),
        Command::Back => tell(desk, "back", screen.back()),
        Command::Look(w) => {
            let (refusal, word) = screen.look(w);
            writeln!(desk.out, "look {refusal} {word}")?;
            Ok(())
        }
        Command::Book => {
            let (size, digest) = screen_digest(screen);
            writeln!(desk.out, "book {size} {digest:016x}")?;
            Ok(())
        }
        _ => on_tables(desk, command),
    }
}

// Writes the three numbers that a call gave.
fn tell<R: BufRead, W: Write>(
    desk: &mut Desk<R, W>,
    call: &str,
    answer: (u32, u32, u32),
) -> Result<(), Stop> {
    let (refusal, line, steps) = answer;
    writeln!(desk.out, "{call} {refusal} {line} {steps}")?;
    Ok(())
}

// The words that can be looked at, how many they are, and their digest.
fn screen_digest<S: Store>(screen: &Screen<S>) -> (u32, u64) {
    let mut digest = empty_digest();
    // a screen shows its words by number alone, and does not tell how many there are
    for w in 0..u32::MAX {
        let (refusal, word) = screen.look(w);
        if refusal != 0 {
            return (w, digest);
        }
        digest = with_word(digest, word);
    }
    (u32::MAX, digest)
}
