// The text that is read, the answers that are written, and the tables of the session.

use crate::commands::{Command, parse};
use crate::stops::Stop;
use rules::{Line, Term};
use std::alloc::Global;
use std::io::{BufRead, Write};

#[derive(Drop)]
pub struct Desk<R, W> {
    reader: R,
    pub out: W,
    // the line of text that was read last, and its number from 1, counted as lines are read into the same memory
    line: Vec<u8>,
    number: u64,
    // a command that was read and is still to be carried out
    waiting: Option<Command>,
    // whether a session runs
    pub running: bool,
    pub lines: Vec<Line>,
    pub terms: Vec<Term>,
}

impl<R: BufRead, W: Write> Desk<R, W> {
    pub(crate) fn new(heap: Global, reader: R, out: W) -> Desk<R, W> {
        Desk {
            reader,
            out,
            line: Vec::new(heap),
            number: 0,
            waiting: None,
            running: false,
            lines: Vec::new(heap),
            terms: Vec::new(heap),
        }
    }

    pub(crate) fn flush(&mut self) -> Result<(), Stop> {
        self.out.flush()?;
        Ok(())
    }

    // A stop at the present line.
    pub(crate) fn stop(&self, expected: &'static str) -> Stop {
        Stop::Text(self.number, expected)
    }

    // The present line.
    pub(crate) fn text(&self) -> Result<&str, Stop> {
        std::str::from_utf8(self.line.as_slice()).map_err(|_| self.stop("text"))
    }

    // Writes the present line.
    pub(crate) fn echo(&mut self) -> Result<(), Stop> {
        self.out.write_all(self.line.as_slice())?;
        self.out.write_all(b"\n")?;
        Ok(())
    }

    // Reads one line, without its end. False where there is none.
    fn advance(&mut self) -> Result<bool, Stop> {
        self.line.clear();
        if self.reader.read_until(b'\n', &mut self.line)? == 0 {
            return Ok(false);
        }
        self.number = self.number.saturating_add(1);
        if let Some(b'\n') = self.line.last() {
            let _ = self.line.pop();
        }
        Ok(true)
    }

    // Whether the present line is blank or a comment.
    fn idle(&self) -> bool {
        matches!(self.line.first(), None | Some(b'#'))
    }

    // The next command.
    pub(crate) fn command(&mut self) -> Result<Command, Stop> {
        if let Some(command) = self.waiting.take() {
            return Ok(command);
        }
        // every loop ends, though the text has no bound of its own
        for _ in 0..u64::MAX {
            if !self.advance()? {
                break;
            }
            if !self.idle() {
                return parse(self.text()?).map_err(|expected| self.stop(expected));
            }
        }
        Ok(Command::Over)
    }

    // Keeps a command that another is to carry out.
    pub(crate) fn put_back(&mut self, command: Command) {
        self.waiting = Some(command);
    }
}
