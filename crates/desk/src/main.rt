// A day at a desk. The house keeps its prices on a card of bytes. A desk lays its moves over the card, and a trader lays more over the
// desk's. When the moves are taken off again, the card shows what the house wrote.

#![tactic(auto)]

mod refusals;
mod scripts;
mod whatif;

use client::{add_to_word, copy_book};
use prices::{Instrument, move_to, post, price};
use rules::Refusal;
use std::fmt::Display;
use std::io;
use store::{Bytes, Moves, Store, Words};
use whatif::{checks, house, rehearsal, second_seat, try_script};

// A card of 81 words, four bytes each: a book with no record.
const CARD: usize = 324;

// A card of 105 words: a book with three records.
const TRADING_CARD: usize = 420;

// The first reference mark, which no layer moves.
const REFERENCE: u32 = 65;

// Prints what a call gave, or why it was refused.
fn report<T: Display + Drop>(
    rt: &HostRuntime,
    what: impl Display + Drop,
    answer: Result<T, Refusal>,
) -> io::Result<()> {
    match answer {
        Ok(value) => println!(rt; "{what}: {value}"),
        Err(refusal) => {
            let number = u32::from(refusal);
            println!(rt; "{what}: refused with {number}, {refusal}")
        }
    }
}

// Prints every price that a store shows.
fn show<S: Store>(rt: &HostRuntime, who: &str, store: &S) -> io::Result<()> {
    println!(rt; "{who}:")?;
    for instrument in Instrument::ALL {
        print!(rt; "  ")?;
        report(rt, instrument, price(store, instrument))?;
    }
    Ok(())
}

// The house writes its prices, and counts the words of its card.
fn house_prices<S: Store>(card: &mut S) -> Result<u32, Refusal> {
    post(card, Instrument::Bund, 100)?;
    post(card, Instrument::Gilt, -25)?;
    post(card, Instrument::Bobl, i32::MAX)?;
    Ok(card.size())
}

// The trader's moves lie over the desk's, and are taken off at the end.
fn trade<S: Store + Drop>(rt: &HostRuntime, desk: S) -> io::Result<S> {
    let mut trader = Moves::over(desk);
    report(
        rt,
        "The trader adds 5 to the desk's bund",
        add_to_word(&mut trader, Instrument::Bund.mark(), 5),
    )?;
    report(
        rt,
        "The trader adds 1 to the greatest word, which wraps",
        add_to_word(&mut trader, Instrument::Bobl.mark(), 1),
    )?;
    report(
        rt,
        "The trader adds 7 to a reference mark, on the card itself",
        add_to_word(&mut trader, REFERENCE, 7),
    )?;
    report(
        rt,
        "The trader reads past the book",
        trader.read(trader.size()),
    )?;
    show(rt, "The trader sees", &trader)?;
    Ok(trader.into_below())
}

// The desk's moves lie over the card, and are taken off at the end.
fn run_desk<S: Store + Drop>(rt: &HostRuntime, card: S) -> io::Result<S> {
    let mut desk = Moves::over(card);
    report(
        rt,
        "The desk marks bund at 130, a move of",
        move_to(&mut desk, Instrument::Bund, 130),
    )?;
    report(
        rt,
        "Below the desk bund stays at",
        price(desk.below(), Instrument::Bund),
    )?;
    let desk = trade(rt, desk)?;
    show(rt, "With the trader's moves off the desk sees", &desk)?;
    Ok(desk.into_below())
}

// One day on the card.
fn day<S: Store + Drop>(rt: &HostRuntime, mut card: S) -> io::Result<()> {
    report(
        rt,
        "The house writes its prices on a card; its words",
        house_prices(&mut card),
    )?;
    let card = run_desk(rt, card)?;
    show(rt, "With the desk's moves off the card shows", &card)?;
    report(rt, "The card's reference mark", card.read(REFERENCE))?;
    let mut words = [0i32; 81];
    report(
        rt,
        "The card is copied; the words of the copy",
        copied(&card, Words::new(&mut words)),
    )
}

// A copy of a card, and how many words it has.
fn copied<S: Store, T: Store + Drop>(card: &S, mut copy: T) -> Result<u32, Refusal> {
    copy_book(card, &mut copy)?;
    Ok(copy.size())
}

// A card that was cut wrong holds no book.
fn wrong_card(rt: &HostRuntime, bytes: &mut [u8]) -> io::Result<()> {
    let mut layer = Moves::over(Bytes::new(bytes));
    report(
        rt,
        "The desk marks bund at 130 on a card with a byte too many",
        move_to(&mut layer, Instrument::Bund, 130),
    )
}

// A script is checked, put on and taken off again, and sent to a second seat.
fn what_if(rt: &HostRuntime, bytes: &mut [u8], words: &mut [i32]) -> io::Result<()> {
    checks(rt)?;
    let mut card = Bytes::new(bytes);
    house(&mut card);
    let card = try_script(rt, card)?;
    report(
        rt,
        "The card's own bund",
        card.read(Instrument::Bund.mark()),
    )?;
    second_seat(rt, card, Words::new(words))
}

// The same calls on a card of bytes and on words.
fn both_kinds(rt: &HostRuntime, bytes: &mut [u8], words: &mut [i32]) -> io::Result<()> {
    let mut card = Bytes::new(bytes);
    house(&mut card);
    let mut book = Words::new(words);
    house(&mut book);
    rehearsal(rt, card, book)
}

fn main(rt: HostRuntime) -> io::Result<()> {
    let mut bytes = vec![in rt.alloc(); 0u8; CARD]?;
    day(&rt, Bytes::new(bytes.as_mut_slice()))?;
    if let Some(bund) = bytes.get(4..8) {
        println!(rt; "The bytes of bund on the card: {bund:?}")?;
    }
    bytes.push(0)?;
    wrong_card(&rt, bytes.as_mut_slice())?;
    let mut card = vec![in rt.alloc(); 0u8; TRADING_CARD]?;
    let mut words = [0i32; 105];
    what_if(&rt, card.as_mut_slice(), &mut words)?;
    let mut card = vec![in rt.alloc(); 0u8; TRADING_CARD]?;
    let mut words = [0i32; 105];
    both_kinds(&rt, card.as_mut_slice(), &mut words)
}
