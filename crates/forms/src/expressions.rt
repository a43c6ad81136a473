// Reading an expression once: whether it is well formed, and whether it names a place.

ghost use Rattle.std.specs.Prelude.{◌≡◌};
ghost use Rattle.forms.specs.Reading.{waiting_after, mentioned, read_in, read_over};

use crate::{alike, term_form};
use rules::{Line, Place, Refusal, Term, TermKind};

// How many values wait after a term, if it is well formed where `depth` locals are open and there is room.
fn waiting_after(depth: usize, t: Term, waiting: u8) -> Option<u8>
    ensures { result ≡ waiting_after depth t waiting }
{
    let Ok(kind) = TermKind::try_from(t.kind) else {
        return None;
    };
    if !term_form(depth, t) {
        return None;
    }
    match kind {
        TermKind::Operator(_) if waiting >= 2 => Some(waiting - 1),
        TermKind::Operator(_) => None,
        _ if waiting < 16 => Some(waiting + 1),
        _ => None,
    }
}

fn mentions(x: Place, t: Term) -> bool
    ensures { result ≡ mentioned x t }
{
    alike(x, t.first) | alike(x, t.second)
}

// Whether the terms of a well-formed expression name x.
fn read_terms(terms: &[Term], depth: usize, x: Place) -> Result<bool, Refusal>
    ensures { result ≡ read_in x depth terms.now }
{
    let mut waiting: u8 = 0;
    let mut named = false;
    for t in terms {
        let Some(next) = waiting_after(depth, *t, waiting) else {
            return Err(Refusal::Malformed);
        };
        waiting = next;
        named = named | mentions(x, *t);
    }
    if waiting == 1 {
        Ok(named)
    } else {
        Err(Refusal::Malformed)
    }
}

// Whether the line's expression, where `depth` locals are open, names the line's x.
pub fn read_expression(terms: &[Term], depth: usize, line: Line) -> Result<bool, Refusal>
    ensures { result ≡ read_over terms.now depth line }
{
    let first = line.first as usize;
    let end = first + line.count as usize;
    if line.count < 1 || line.count > 32 || end > terms.len() {
        return Err(Refusal::Malformed);
    }
    read_terms(&terms[first..end], depth, line.x)
}
