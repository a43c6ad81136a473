// Steps in a second, on a word slice, on a byte slice and on a layer of moves over words: for a loop of arithmetic, a walk over records
// with calls, and a run that is refused at its end and stepped back. What the runs give goes to standard output, the rates go to standard
// error. `bench 1000` runs each loop a thousand times as long, and `bench 1000 walk bytes` runs that one alone.

#![tactic(auto)]

mod measures;
mod scripts;

use measures::{Job, on_kinds, wanted};
use rules::{Line, Term};
use script::program::Program;
use scripts::{arithmetic, arithmetic_terms, refused, walk, walk_terms};
use std::{env, io};

// A book without records, and one with sixty.
const SMALL: usize = 81;

const LARGE: usize = 561;

const ARITHMETIC_ROUNDS: i32 = 8_333;

const WALK_ROUNDS: i32 = 140;

// How many times as long each loop is run, which script, and on which kind of store; all of them where nothing is said.
#[derive(Drop)]
struct Choice {
    times: i32,
    job: Option<String>,
    kind: Option<String>,
}

// How many times as long a text says: once where it says nothing.
fn read_times(text: Option<String>) -> i32 {
    text.and_then(|number| number.as_str().parse::<u16>().ok())
        .map_or(1, i32::from)
}

fn read_choice(rt: &HostRuntime) -> io::Result<Choice> {
    let mut args = env::args(rt)?;
    let _ = args.next();
    let times = read_times(args.next());
    let job = args.next();
    let kind = args.next();
    Ok(Choice { times, job, kind })
}

// What a job is made of: its script as tables, not built yet, and the rest as the job has it.
#[derive(Clone, Copy)]
struct Workload<'a> {
    name: &'static str,
    lines: &'a [Line],
    terms: &'a [Term],
    size: usize,
    both_ways: bool,
}

impl<'a> Workload<'a> {
    // The job, if the script is accepted.
    fn job(&self) -> Option<Job> {
        Some(Job {
            name: self.name,
            program: Program::build(self.lines, self.terms).ok()?,
            size: self.size,
            both_ways: self.both_ways,
        })
    }
}

// The chosen script, or all three. Only what is chosen is built, and one program at a time.
fn measure_chosen(rt: &HostRuntime, choice: &Choice) -> io::Result<()> {
    let (counting, walking, refusing) = (arithmetic(), walk(), refused());
    let loops = arithmetic_terms(ARITHMETIC_ROUNDS.saturating_mul(choice.times));
    let walks = walk_terms(WALK_ROUNDS.saturating_mul(choice.times));
    let workloads = [
        Workload {
            name: "arithmetic",
            lines: &counting,
            terms: &loops,
            size: SMALL,
            both_ways: true,
        },
        Workload {
            name: "walk",
            lines: &walking,
            terms: &walks,
            size: LARGE,
            both_ways: true,
        },
        Workload {
            name: "refused",
            lines: &refusing,
            terms: &loops,
            size: SMALL,
            both_ways: false,
        },
    ];
    for workload in workloads {
        if !wanted(choice.job.as_deref(), workload.name) {
            continue;
        }
        if let Some(job) = workload.job() {
            on_kinds(rt, &job, choice.kind.as_deref())?;
        }
    }
    Ok(())
}

fn main(rt: HostRuntime) -> io::Result<()> {
    let choice = read_choice(&rt)?;
    measure_chosen(&rt, &choice)
}
