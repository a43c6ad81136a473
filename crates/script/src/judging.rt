// What the check finds of one line.

ghost use Rattle.std.specs.Prelude.{◌≡◌};
ghost use Rattle.script.specs.Judging.{placed_at, named_in, apart_from, judged_by, noted};

use crate::openers::Openers;
use forms::{alike, is_none, reaches, read_expression, uses_expression, well_filled, well_sorted};
use rules::{Kind, Line, Refusal, Term};

// The places are of sorts that the kind takes, the locals named are open, and a local has room.
fn placed(locals: usize, line: Line) -> bool
    ensures { result ≡ placed_at locals line }
{
    let Ok(kind) = Kind::try_from(line.kind) else {
        return false;
    };
    well_sorted(kind, line.x, line.y)
        & ((reaches(locals, line.x) & reaches(locals, line.y))
            & (!line.is(Kind::Local) | (locals < 16)))
}

// Whether the expression, if the kind has one, names x. A delocal's expression does not see the local that it closes.
fn named_in(terms: &[Term], locals: usize, line: Line) -> Result<bool, Refusal>
    ensures { result ≡ named_in terms.now locals line }
{
    match Kind::try_from(line.kind) {
        Ok(Kind::Delocal) => read_expression(terms, locals.saturating_sub(1), line),
        Ok(kind) if uses_expression(kind) => read_expression(terms, locals, line),
        _ => Ok(false),
    }
}

// x is not named in its own expression, and copy and uncopy have two places.
fn apart(named: bool, line: Line) -> bool
    ensures { result ≡ apart_from named line }
{
    (is_none(line.x) | !named)
        & (!(line.is(Kind::Copy) | line.is(Kind::Uncopy)) | !alike(line.x, line.y))
}

// One line, after those that left these openers and began these methods.
pub(crate) fn judge(
    openers: &Openers,
    begun: &[bool; 256],
    line: Line,
    terms: &[Term],
) -> Result<(), Refusal>
    ensures { result ≡ judged_by openers.now begun.now line terms.now }
{
    if !well_filled(line) {
        return Err(Refusal::Unknown);
    }
    if !openers.nests(line) {
        return Err(Refusal::Unpaired);
    }
    if line.is(Kind::Begin) && begun[usize::from(line.q)] {
        return Err(Refusal::WrongMethod);
    }
    let locals = openers.locals();
    if !placed(locals, line) {
        return Err(Refusal::Malformed);
    }
    let named = named_in(terms, locals, line)?;
    if apart(named, line) {
        Ok(())
    } else {
        Err(Refusal::SelfNamed)
    }
}

// The methods begun after a line.
pub(crate) fn note(begun: &mut [bool; 256], line: Line)
    ensures { begun.new ≡ noted begun.old line }
{
    if line.is(Kind::Begin) {
        begun[usize::from(line.q)] = true;
    }
}
