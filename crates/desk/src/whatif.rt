// The what-if: a script on the desk's prices, and off again.

use crate::refusals::Told;
use crate::scripts::{doubled, endless, lift, terms};
use client::copy_book;
use rules::{Line, Term};
use screen::{Call, Reply, Screen, rehearse};
use script::checking::{Fault, check};
use script::turning::turn;
use std::io;
use store::{Moves, Store};

const BUND: u32 = 1;

const GILT: u32 = 2;

const HEAD: u32 = 0;

const FIRST_LEG: u32 = 65;

const SECOND_LEG: u32 = 66;
// the weights of the first two records, and the link of the first
const FIRST_WEIGHT: u32 = 81;

const SECOND_WEIGHT: u32 = 89;

const FIRST_LINK: u32 = 85;

// A card with three free records: bund at 100, gilt at -25.
pub(crate) fn house<S: Store>(card: &mut S) {
    let _ = card.write(BUND, 100);
    let _ = card.write(GILT, -25);
    let _ = card.write(HEAD, 1);
    let _ = card.write(88, 2);
    let _ = card.write(96, 3);
}

// Prints the answer of load, apply or back.
fn tell(rt: &HostRuntime, what: &str, answer: (u32, u32, u32)) -> io::Result<()> {
    let (refusal, line, steps) = answer;
    if refusal == 0 {
        println!(rt; "{what}: done in {steps} steps ({refusal}, {line}, {steps})")
    } else {
        let words = Told(refusal);
        println!(rt;
            "{what}: refused, {words}, at line {line} after {steps} steps ({refusal}, {line}, {steps})"
        )
    }
}

// Prints what the check or the turn of a script gave.
fn tell_verdict(rt: &HostRuntime, what: &str, answer: Result<(), Fault>) -> io::Result<()> {
    match answer {
        Ok(()) => println!(rt; "{what}: accepted"),
        Err(fault) => {
            let number = u32::from(fault.refusal);
            let line = fault.line;
            let words = fault.refusal;
            println!(rt; "{what}: refused with {number} at line {line}, {words}")
        }
    }
}

fn look<S: Store>(rt: &HostRuntime, screen: &Screen<S>, name: &str, w: u32) -> io::Result<()> {
    let (refusal, word) = screen.look(w);
    if refusal == 0 {
        println!(rt; "  {name}: {word}")
    } else {
        let words = Told(refusal);
        println!(rt; "  {name}: refused with {refusal}, {words}")
    }
}

fn show<S: Store>(rt: &HostRuntime, screen: &Screen<S>) -> io::Result<()> {
    look(rt, screen, "bund", BUND)?;
    look(rt, screen, "gilt", GILT)?;
    look(rt, screen, "first leg", FIRST_LEG)?;
    look(rt, screen, "second leg", SECOND_LEG)?;
    look(rt, screen, "its weight", FIRST_WEIGHT)?;
    look(rt, screen, "its link", FIRST_LINK)?;
    look(rt, screen, "the second weight", SECOND_WEIGHT)
}

// The script is put on twice over, refused where it must be, and taken off again in reverse order.
fn put_on<S: Store>(rt: &HostRuntime, screen: &mut Screen<S>) -> io::Result<()> {
    tell(rt, "Apply lift with a budget of 10", screen.apply(0, 10))?;
    tell(rt, "Apply method 31", screen.apply(31, 100))?;
    tell(rt, "Apply lift", screen.apply(0, 1000))?;
    show(rt, screen)?;
    tell(rt, "Apply lift once more", screen.apply(0, 1000))?;
    tell(rt, "Apply method 3", screen.apply(3, 1000))?;
    look(rt, screen, "bund", BUND)
}

fn take_off<S: Store>(rt: &HostRuntime, screen: &mut Screen<S>) -> io::Result<()> {
    tell(
        rt,
        "Load while two methods stand",
        screen.load(&lift(), &terms()),
    )?;
    tell(rt, "Back", screen.back())?;
    look(rt, screen, "bund", BUND)?;
    tell(rt, "Back", screen.back())?;
    show(rt, screen)?;
    tell(rt, "Back", screen.back())
}

// The desk tries its script on the card, under moves of its own, and hands the card back.
pub(crate) fn try_script<S: Store + Drop>(rt: &HostRuntime, card: S) -> io::Result<S> {
    let mut screen = Screen::open(Moves::over(card));
    tell(
        rt,
        "Load a script that adds bund to itself",
        screen.load(&doubled(), &terms()),
    )?;
    tell(rt, "Load lift", screen.load(&lift(), &terms()))?;
    put_on(rt, &mut screen)?;
    take_off(rt, &mut screen)?;
    Ok(screen.close().into_below())
}

// Lift is put on one seat's book. A second seat gets a copy of it and the turned script, and takes lift off there.
pub(crate) fn second_seat<S: Store + Drop, T: Store + Drop>(
    rt: &HostRuntime,
    card: S,
    mut copy: T,
) -> io::Result<()> {
    let mut lines = lift();
    let mut first = Screen::open(card);
    tell(
        rt,
        "The first seat loads lift",
        first.load(&lines, &terms()),
    )?;
    tell(rt, "The first seat applies it", first.apply(0, 1000))?;
    let _ = copy_book(&first.close(), &mut copy);
    tell_verdict(rt, "The script is turned", turn(&mut lines, &terms()))?;
    let mut second = Screen::open(copy);
    tell(
        rt,
        "The second seat loads the turned script",
        second.load(&lines, &terms()),
    )?;
    show(rt, &second)?;
    tell(rt, "The second seat applies it", second.apply(0, 1000))?;
    show(rt, &second)
}

// The check by itself.
pub(crate) fn checks(rt: &HostRuntime) -> io::Result<()> {
    tell_verdict(rt, "Check of lift", check(&lift(), &terms()))?;
    tell_verdict(
        rt,
        "Check of a script that adds bund to itself",
        check(&doubled(), &terms()),
    )?;
    tell_verdict(rt, "Check of 257 lines", check(&endless(), &terms()))?;
    let mut lines = doubled();
    tell_verdict(
        rt,
        "Turn of a script that adds bund to itself",
        turn(&mut lines, &terms()),
    )
}

fn tell_reply(rt: &HostRuntime, reply: Reply) -> io::Result<()> {
    match reply {
        Reply::Numbers(refusal, line, steps) => println!(rt; "  ({refusal}, {line}, {steps})"),
        Reply::Word(refusal, word) => println!(rt; "  ({refusal}, {word})"),
    }
}

fn tell_all(rt: &HostRuntime, who: &str, replies: &[Reply]) -> io::Result<()> {
    println!(rt; "{who}:")?;
    for reply in replies {
        tell_reply(rt, *reply)?;
    }
    Ok(())
}

// The same calls on two stores of two kinds: load, apply, look, a refused apply, back, look, and a back too many.
fn replay<'a, S: Store + Drop, T: Store + Drop>(
    rt: &HostRuntime,
    card: S,
    words: T,
    lines: &'a [Line],
    terms: &'a [Term],
) -> io::Result<()> {
    let calls: [Call<'a>; 7] = [
        Call::Load(lines, terms),
        Call::Apply(0, 1000),
        Call::Look(BUND),
        Call::Apply(0, 1000),
        Call::Back,
        Call::Look(BUND),
        Call::Back,
    ];
    let mut first = [Reply::Numbers(0, 0, 0); 7];
    let mut second = [Reply::Numbers(0, 0, 0); 7];
    let (_, _) = rehearse(card, words, &calls, &mut first, &mut second);
    tell_all(rt, "The replies on the card", &first)?;
    tell_all(rt, "The replies on words", &second)
}

pub(crate) fn rehearsal<S: Store + Drop, T: Store + Drop>(
    rt: &HostRuntime,
    card: S,
    words: T,
) -> io::Result<()> {
    replay(rt, card, words, &lift(), &terms())
}
