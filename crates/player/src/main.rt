// Plays sessions from standard input, or from the file that the one argument names, and prints one line an answer.

#![tactic(auto)]

mod commands;
mod desk;
mod playing;
mod stops;
mod stores;
mod tables;
mod text;

use desk::Desk;
use playing::play;
use std::io::{BufRead, BufReader, BufWriter};
use std::process::ExitCode;
use std::{env, fs, io};
use stops::Stop;

// Plays all that a reader gives. The answers before a stop are written out as well.
fn play_all<R: BufRead + Drop>(rt: &HostRuntime, reader: R) -> Result<(), Stop> {
    let mut desk = Desk::new(rt.alloc(), reader, BufWriter::new(rt.alloc(), rt.stdout())?);
    let result = play(&mut desk, rt.alloc());
    desk.flush()?;
    result
}

// The file that the one argument names.
fn argument(rt: &HostRuntime) -> io::Result<Option<String>> {
    let mut given = env::args(rt)?;
    let _ = given.next();
    Ok(given.next())
}

fn run(rt: &HostRuntime) -> Result<(), Stop> {
    match argument(rt)? {
        Some(path) => play_all(
            rt,
            BufReader::new(rt.alloc(), fs::open(rt, path.as_str())?)?,
        ),
        None => play_all(rt, BufReader::new(rt.alloc(), rt.stdin())?),
    }
}

fn main(rt: HostRuntime) -> ExitCode {
    let Err(stop) = run(&rt) else {
        return ExitCode::SUCCESS;
    };
    let _ = eprintln!(rt; "player: {stop}");
    ExitCode::FAILURE
}
