// Making a checked program, and looking things up in it.

ghost use Rattle.std.specs.Prelude.{◌≡◌, ◌<◌, [], length, slice_get, IfOk, IfErr};
ghost use Rattle.rules.specs.Kinds.{code};
ghost use Rattle.rules.specs.declared.Kind.TheVariants.{Begin, End};
ghost use Rattle.rules.specs.Ledger.{no_script};
ghost use Rattle.rules.specs.Script.{terms_of, partner as other_line, where_is};
ghost use Rattle.script.specs.Programs.{script_of, Built};
ghost use Rattle.script.specs.Verdicts.{script_from};

use crate::checking::{Fault, TOO_LONG, check};
use crate::pairs::{methods, partners};
use crate::program::Program;
use crate::turning::turn_lines;
use arrayvec::ArrayVec;
use rules::{Line, Term};

impl Program {
    // The program of the empty script.
    pub fn empty() -> Program
        ensures { script_of result ≡ no_script }
    {
        Program {
            lines: ArrayVec::new(),
            terms: ArrayVec::new(),
            partners: partners(&[], &[]),
            methods: methods(&[]),
        }
    }

    // The program of these tables, if the check accepts them.
    pub fn build(lines: &[Line], terms: &[Term]) -> Result<Program, Fault>
        ensures { Built result (script_from lines.now terms.now) }
    {
        check(lines, terms)?;
        let mut copied_lines = ArrayVec::new();
        fill(&mut copied_lines, lines)?;
        let mut copied_terms = ArrayVec::new();
        fill(&mut copied_terms, terms)?;
        let mut turned: ArrayVec<Line, 256> = ArrayVec::new();
        fill(&mut turned, lines)?;
        turn_lines(turned.as_mut_slice());
        Ok(Program {
            partners: partners(lines, turned.as_slice()),
            methods: methods(lines),
            lines: copied_lines,
            terms: copied_terms,
        })
    }

    // How many lines there are.
    pub fn len(&self) -> usize
        ensures { result ≡ length (script_of self.now).lines }
    {
        self.lines.len()
    }

    // Line k, if there is one.
    pub fn line(&self, k: usize) -> Option<Line>
        ensures { result ≡ slice_get (script_of self.now).lines k }
    {
        self.lines.as_slice().get(k).copied()
    }

    // All terms, in order.
    pub fn terms(&self) -> &[Term]
        ensures { result.now ≡ (script_of self.now).terms }
    {
        self.terms.as_slice()
    }

    // The terms of a line's expression, as far as the table has them.
    pub fn expression(&self, line: Line) -> &[Term]
        ensures { result.now ≡ terms_of (script_of self.now).terms line }
    {
        let terms = self.terms();
        let end = (usize::from(line.first) + usize::from(line.count)).min(terms.len());
        let start = usize::from(line.first).min(end);
        &terms[start..end]
    }

    // The other line of the pair that line k belongs to, k itself if it belongs to none.
    pub fn partner(&self, k: u16) -> u16
        ensures { result ≡ other_line (script_of self.now).lines k }
    {
        match self.partners.get(usize::from(k)) {
            Some(other) => *other,
            None => k,
        }
    }

    // The line at which method q begins, the number of lines where there is none.
    pub fn begin(&self, q: u8) -> u16
        ensures { result ≡ where_is (code Begin) q (script_of self.now).lines }
    {
        self.methods[usize::from(q)].begin
    }

    // The line at which method q ends, the number of lines where there is none.
    pub fn end(&self, q: u8) -> u16
        ensures { result ≡ where_is (code End) q (script_of self.now).lines }
    {
        self.methods[usize::from(q)].end
    }
}

// Fills an empty table with these items, if they are not too many. The table is lent, so that none is handed on in a Result of its own.
fn fill<T: Copy + Drop, const N: usize>(
    table: &mut ArrayVec<T, N>,
    items: &[T],
) -> Result<(), Fault>
    requires { table.old.items ≡ [] }
    ensures ok { IfOk result (λ _. table.new.items ≡ items.now) }
    ensures err { IfErr result (λ fault. N < length items.now) }
{
    table.try_extend_from_slice(items).or(Err(TOO_LONG))
}
