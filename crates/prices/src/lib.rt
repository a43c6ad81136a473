// Prices of instruments, in ticks, each kept in a number mark.

#![tactic(auto)]

ghost use Rattle.std.specs.Prelude.{◌≡◌, Some, slice_set};
ghost use Rattle.rules.specs.Book.{read_of, write_of};
ghost use Rattle.store.specs.Layout.{moves_after};
ghost use Rattle.prices.specs.Prices.{mark, move_to, name};

use rules::Refusal;
use std::fmt;
use store::{Moves, Store};

#[derive(Clone, Copy, Debug, PartialEq, Eq)]
pub enum Instrument {
    Bund,
    Gilt,
    Bobl,
}

impl Instrument {
    pub const ALL: [Instrument; 3] = [Instrument::Bund, Instrument::Gilt, Instrument::Bobl];

    // The mark that keeps the instrument's price.
    pub fn mark(self) -> u32
        ensures { result ≡ mark self }
    {
        match self {
            Instrument::Bund => 1,
            Instrument::Gilt => 2,
            Instrument::Bobl => 64,
        }
    }
}

impl fmt::Display for Instrument {
    ghost output = { λ instrument. Some (name instrument) };

    fn fmt<W: fmt::Write>(&self, f: &mut fmt::Formatter<W>) -> fmt::Result {
        f.write_str(match self {
            Instrument::Bund => "bund",
            Instrument::Gilt => "gilt",
            Instrument::Bobl => "bobl",
        })
    }
}

pub fn price<S: Store>(store: &S, instrument: Instrument) -> Result<i32, Refusal>
    ensures { result ≡ read_of (S.book store.now) (mark instrument) }
{
    store.read(instrument.mark())
}

// Writes a price into a store, and alters nothing else.
pub fn post<S: Store>(store: &mut S, instrument: Instrument, ticks: i32) -> Result<(), Refusal>
    ensures answer { result ≡ write_of (S.book store.old) (mark instrument) }
    ensures after { S.book store.new ≡ slice_set (S.book store.old) (mark instrument) ticks }
{
    store.write(instrument.mark(), ticks)
}

// Writes a price into a layer, and gives the move that shows it over the price below, which stays.
#[tactic(auto, using(crate::proofs::Marked::at_mark))]
pub fn move_to<S: Store>(
    layer: &mut Moves<S>,
    instrument: Instrument,
    ticks: i32,
) -> Result<i32, Refusal>
    ensures answer { result ≡ move_to (S.book layer.old.below) instrument ticks }
    ensures moves { layer.new.moves ≡ moves_after layer.old.moves (S.book layer.old.below) (mark instrument) ticks }
    ensures kept { layer.new.below ≡ layer.old.below }
{
    let w = instrument.mark();
    layer.write(w, ticks)?;
    Ok(layer.move_of(w))
}
