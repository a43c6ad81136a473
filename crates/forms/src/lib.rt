// What a place, a term, an expression and a line of each kind must be, each by itself.

#![tactic(auto)]

ghost use Rattle.std.specs.Prelude.{◌≡◌};
ghost use Rattle.rules.specs.Kinds.{code};
ghost use Rattle.rules.specs.Script.{is_none, alike as are_alike};
ghost use Rattle.rules.specs.Check.{known as is_known, reaches as is_open, form_of, sort, uses_x, uses_y, among, well_filled, place_form, term_shape, term_form};
ghost use Rattle.forms.specs.Sorts.{sort_code};

mod expressions;

pub use expressions::read_expression;
use rules::{Kind, Line, Place, Term, TermKind};

// What a place is for.
#[derive(Clone, Copy, PartialEq, Eq)]
enum Sort {
    None,
    Number,
    Reference,
}

fn known(p: Place) -> bool
    ensures { result ≡ is_known p }
{
    match p {
        Place::None => true,
        Place::M(i) => (1..=64).contains(&i),
        Place::R(i) => (1..=16).contains(&i),
        Place::N(i) | Place::F(i) => i <= 3,
        Place::V(i) => i <= 15,
    }
}

// `is_none` and `alike` are `==` with the rules' own words for it as their contracts, so that no caller needs to tie the two.
pub fn is_none(p: Place) -> bool
    ensures { result ≡ is_none p }
{
    p == Place::None
}

pub fn alike(p: Place, q: Place) -> bool
    ensures { result ≡ are_alike p q }
{
    p == q
}

fn sort_of(p: Place) -> Sort
    ensures { sort_code result ≡ sort p }
{
    match p {
        Place::None => Sort::None,
        Place::M(_) | Place::N(_) | Place::V(_) => Sort::Number,
        Place::R(_) | Place::F(_) => Sort::Reference,
    }
}

// A local is named only where it is open.
pub fn reaches(depth: usize, p: Place) -> bool
    ensures { result ≡ is_open depth p }
{
    match p {
        Place::V(i) => usize::from(i) < depth,
        _ => true,
    }
}

// What a kind uses is told by four lists of kinds: one table of four flags for each of eighteen kinds would be longer.
fn uses_method(kind: Kind) -> bool
    ensures { result ≡ (form_of (code kind)).method }
{
    matches!(kind, Kind::Begin | Kind::End | Kind::Call | Kind::Uncall)
}

pub fn uses_expression(kind: Kind) -> bool
    ensures { result ≡ (form_of (code kind)).expression }
{
    matches!(
        kind,
        Kind::Add
            | Kind::Subtract
            | Kind::Xor
            | Kind::If
            | Kind::Fi
            | Kind::From
            | Kind::Until
            | Kind::Local
            | Kind::Delocal
    )
}

fn uses_x(kind: Kind) -> bool
    ensures { result ≡ uses_x (form_of (code kind)).sorts }
{
    matches!(
        kind,
        Kind::Add
            | Kind::Subtract
            | Kind::Xor
            | Kind::New
            | Kind::Delete
            | Kind::Copy
            | Kind::Uncopy
            | Kind::Swap
    )
}

fn uses_y(kind: Kind) -> bool
    ensures { result ≡ uses_y (form_of (code kind)).sorts }
{
    matches!(
        kind,
        Kind::Copy | Kind::Uncopy | Kind::Swap | Kind::Call | Kind::Uncall
    )
}

// Whether the places of a line have sorts that its kind takes.
pub fn well_sorted(kind: Kind, x: Place, y: Place) -> bool
    ensures { result ≡ among (sort x) (sort y) (form_of (code kind)).sorts }
{
    let sorts = (sort_of(x), sort_of(y));
    match kind {
        Kind::Add | Kind::Subtract | Kind::Xor => sorts == (Sort::Number, Sort::None),
        Kind::New | Kind::Delete => sorts == (Sort::Reference, Sort::None),
        Kind::Copy | Kind::Uncopy => sorts == (Sort::Reference, Sort::Reference),
        Kind::Swap => matches!(
            sorts,
            (Sort::Number, Sort::Number) | (Sort::Reference, Sort::Reference)
        ),
        Kind::Call | Kind::Uncall => { matches!(sorts, (Sort::None, Sort::None | Sort::Reference)) }
        Kind::Begin
        | Kind::End
        | Kind::If
        | Kind::Fi
        | Kind::From
        | Kind::Until
        | Kind::Local
        | Kind::Delocal => sorts == (Sort::None, Sort::None),
    }
}

// Kind, places and method are known, and what the kind does not use is none or 0.
pub fn well_filled(line: Line) -> bool
    ensures { result ≡ well_filled line }
{
    let Ok(kind) = Kind::try_from(line.kind) else {
        return false;
    };
    let used = (uses_method(kind) | (line.q == 0))
        & ((uses_x(kind) | is_none(line.x))
            & ((uses_y(kind) | is_none(line.y))
                & (uses_expression(kind) | ((line.first == 0) & (line.count == 0)))));
    known(line.x) & (known(line.y) & ((line.q <= 31) & used))
}

fn place_form(depth: usize, p: Place) -> bool
    ensures { result ≡ place_form depth p }
{
    known(p) && reaches(depth, p)
}

// What a term of its kind has.
fn term_shape(t: Term) -> bool
    ensures { result ≡ term_shape t }
{
    let Ok(kind) = TermKind::try_from(t.kind) else {
        return false;
    };
    let (first, second) = (sort_of(t.first), sort_of(t.second));
    match kind {
        TermKind::Number => (first == Sort::None) & (second == Sort::None),
        TermKind::Word => (first == Sort::Number) & ((second == Sort::None) & (t.number == 0)),
        TermKind::Nil => (first == Sort::Reference) & ((second == Sort::None) & (t.number == 0)),
        TermKind::Same => {
            (first == Sort::Reference) & ((second == Sort::Reference) & (t.number == 0))
        }
        TermKind::Operator(_) => {
            (first == Sort::None) & ((second == Sort::None) & (t.number == 0))
        }
    }
}

// A term that has what its kind uses, its places known and, if locals, open.
pub(crate) fn term_form(depth: usize, t: Term) -> bool
    ensures { result ≡ term_form depth t }
{
    term_shape(t) & (place_form(depth, t.first) & place_form(depth, t.second))
}
