// Runs of a script on the three kinds of store, with what they gave and how fast they were.

use runs::{numbers, run};
use script::program::Program;
use std::io;
use std::time::Instant;
use store::{Bytes, Moves, Store, Words};

// A script to measure, how many words its book has, and whether it is run backward too.
#[derive(Drop)]
pub(crate) struct Job {
    pub(crate) name: &'static str,
    pub(crate) program: Program,
    pub(crate) size: usize,
    pub(crate) both_ways: bool,
}

// The factor in m3.
const FACTOR: i32 = -1640531527;

// What is printed of a book: m1, m2, m4 and m5, and the first two fields of record 1 where there is one.
const SHOWN: [u32; 6] = [1, 2, 4, 5, 81, 82];

// Sets m3; r1 names record 1, and `f0` links records 1 to 60. What a smaller book does not have is left out.
fn open<S: Store>(store: &mut S) {
    let _ = store.write(3, FACTOR);
    let _ = store.write(65, 1);
    for (w, next) in (85..).step_by(8).zip(2..61) {
        let _ = store.write(w, next);
    }
}

fn show<S: Store>(rt: &HostRuntime, store: &S) -> io::Result<()> {
    for w in SHOWN {
        if let Ok(word) = store.read(w) {
            print!(rt; " {word}")?;
        }
    }
    println!(rt; "")
}

// Steps in a second. The steps back of a refused run are not counted.
fn rate(steps: u32, nanos: u64) -> u64 {
    u64::from(steps)
        .saturating_mul(1_000_000_000)
        .checked_div(nanos)
        .unwrap_or(0)
}

fn nanos_since(rt: &HostRuntime, start: Instant) -> io::Result<u64> {
    let time = start.elapsed(rt)?;
    Ok(u64::try_from(time.as_nanos()).unwrap_or(u64::MAX))
}

// One run: its answer and the words after it to standard output, its rate to standard error.
fn leg<S: Store>(
    rt: &HostRuntime,
    job: &Job,
    kind: &str,
    store: &mut S,
    forward: bool,
) -> io::Result<()> {
    let name = job.name;
    let way = if forward { "forward" } else { "backward" };
    let start = Instant::now(rt)?;
    let ending = run(store, &job.program, 0, forward, u32::MAX);
    let nanos = nanos_since(rt, start)?;
    let (refusal, line, steps) = numbers(ending);
    print!(rt; "{name} on {kind}, {way}: ({refusal}, {line}, {steps}), words")?;
    show(rt, store)?;
    eprintln!(rt;
        "{name} on {kind}, {way}: {} steps a second",
        rate(steps, nanos)
    )
}

fn measure<S: Store + Drop>(
    rt: &HostRuntime,
    job: &Job,
    kind: &str,
    mut store: S,
) -> io::Result<()> {
    open(&mut store);
    leg(rt, job, kind, &mut store, true)?;
    if job.both_ways {
        leg(rt, job, kind, &mut store, false)?;
    }
    Ok(())
}

// Each kind of store lies in memory of its own type and size, so the three share no more than `measure`.
fn on_words(rt: &HostRuntime, job: &Job) -> io::Result<()> {
    let mut words = vec![in rt.alloc(); 0i32; job.size]?;
    measure(rt, job, "words", Words::new(words.as_mut_slice()))
}

fn on_bytes(rt: &HostRuntime, job: &Job) -> io::Result<()> {
    let mut bytes = vec![in rt.alloc(); 0u8; job.size.saturating_mul(4)]?;
    measure(rt, job, "bytes", Bytes::new(bytes.as_mut_slice()))
}

fn on_moves(rt: &HostRuntime, job: &Job) -> io::Result<()> {
    let mut words = vec![in rt.alloc(); 0i32; job.size]?;
    measure(
        rt,
        job,
        "moves",
        Moves::over(Words::new(words.as_mut_slice())),
    )
}

// Whether a name is the chosen one; all are where none is chosen.
pub(crate) fn wanted(chosen: Option<&str>, name: &str) -> bool {
    chosen.is_none_or(|text| text == name)
}

// A job on the chosen kind of store, or on all three.
pub(crate) fn on_kinds(rt: &HostRuntime, job: &Job, kind: Option<&str>) -> io::Result<()> {
    if wanted(kind, "words") {
        on_words(rt, job)?;
    }
    if wanted(kind, "bytes") {
        on_bytes(rt, job)?;
    }
    if wanted(kind, "moves") {
        on_moves(rt, job)?;
    }
    Ok(())
}
