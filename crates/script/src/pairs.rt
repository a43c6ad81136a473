// Lines that belong together: the other line of a pair, and the lines at which a method begins and ends.

ghost use Rattle.std.specs.Prelude.{◌≡◌, ℕ, ◌^◌, ◌<◌, ◌≤◌, ◌==◌, ◌&&◌, cond, length, slice_index, slice_index_or};
ghost use Rattle.rules.specs.Kinds.{code};
ghost use Rattle.rules.specs.declared.Kind.TheVariants.{Begin, End};
ghost use Rattle.script.specs.Methods.{no_method};
ghost use Rattle.rules.specs.Script.{opens as is_opener, closes as is_closer, deeper as deeper_by, to_closer, partner, where_is, turned as turned_lines};

use crate::methods::Method;
use rules::{Kind, Line};
use std::array;

pub(crate) fn opens(line: Line) -> bool
    ensures { result ≡ is_opener line.kind }
{
    matches!(
        Kind::try_from(line.kind),
        Ok(Kind::Begin | Kind::If | Kind::From | Kind::Local)
    )
}

pub(crate) fn closes(line: Line) -> bool
    ensures { result ≡ is_closer line.kind }
{
    matches!(
        Kind::try_from(line.kind),
        Ok(Kind::End | Kind::Fi | Kind::Until | Kind::Delocal)
    )
}

// How many further pairs are open after a line.
fn deeper(line: Line, deep: usize) -> usize
    requires { deep < 2 ^ 32 }
    ensures { result ≡ deeper_by line.kind deep }
{
    if opens(line) {
        deep + 1
    } else if closes(line) {
        deep.saturating_sub(1)
    } else {
        deep
    }
}

// How many lines stand before the one that closes the pair open at the start.
fn to_closer(lines: &[Line]) -> usize
    requires { length lines.now ≤ 256 }
    ensures value { result ≡ to_closer lines.now 0 }
    ensures low { result ≤ length lines.now }
{
    let mut deep: usize = 0;
    for (n, line) in lines.iter().enumerate() {
        if closes(*line) & (deep == 0) {
            return n;
        }
        deep = deeper(*line, deep);
    }
    lines.len()
}

// The other line of the pair that line k belongs to, k itself if it belongs to none. From a closer it is looked for in the turned lines.
fn partner_of(lines: &[Line], turned: &[Line], k: usize) -> u16
    requires few { length lines.now ≤ 256 }
    requires inside { k ≤ 256 }
    requires turned { turned.now ≡ turned_lines lines.now }
    ensures { result ≡ partner lines.now k }
{
    let Some(line) = lines.get(k) else {
        return k as u16;
    };
    let other = if opens(*line) {
        k + 1 + to_closer(&lines[k + 1..])
    } else if closes(*line) {
        k.saturating_sub(1 + to_closer(&turned[lines.len() - k..]))
    } else {
        k
    };
    other as u16
}

// The partner of each line.
pub(crate) fn partners(lines: &[Line], turned: &[Line]) -> [u16; 256]
    requires few { length lines.now ≤ 256 }
    requires turned { turned.now ≡ turned_lines lines.now }
    ensures { (k : ℕ) → k < 256 → slice_index result k ≡ partner lines.now k }
{
    array::from_fn(|k| partner_of(lines, turned, k))
}

// Keeps k, the number of this line, as the begin or the end of its method, where the line is one.
fn keep(table: &mut [Method; 256], line: Line, k: u16)
    ensures begins { (q : ℕ) → q < 256 → (slice_index_or table.new q no_method).begin ≡ cond (line.kind == code Begin && line.q == q) k (slice_index_or table.old q no_method).begin }
    ensures ends { (q : ℕ) → q < 256 → (slice_index_or table.new q no_method).end ≡ cond (line.kind == code End && line.q == q) k (slice_index_or table.old q no_method).end }
{
    let method = &mut table[usize::from(line.q)];
    if line.is(Kind::Begin) {
        method.begin = k;
    }
    if line.is(Kind::End) {
        method.end = k;
    }
}

// The lines at which each method begins and ends. One walk serves all methods. It goes from the last line to the first, so that the first
// of each is kept, and over numbers, since a number is what is kept.
pub(crate) fn methods(lines: &[Line]) -> [Method; 256]
    requires { length lines.now ≤ 256 }
    ensures begins { (q : ℕ) → q < 256 → (slice_index_or result q no_method).begin ≡ where_is (code Begin) q lines.now }
    ensures ends { (q : ℕ) → q < 256 → (slice_index_or result q no_method).end ≡ where_is (code End) q lines.now }
{
    let none = lines.len() as u16;
    let mut table = [Method {
        begin: none,
        end: none,
    }; 256];
    for k in (0..lines.len()).rev() {
        keep(&mut table, lines[k], k as u16);
    }
    table
}
