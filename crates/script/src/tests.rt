// What a checked program answers.

use crate::checking::{check, numbers};
use crate::program::Program;
use rules::{Kind, Line, Place, Term};

// Method 0 adds 7 to m1 where m2 is nil, method 2 does nothing.
fn lines() -> [Line; 6] {
    [
        Line::bare(Kind::Begin, 0),
        Line::with(Kind::If, Place::None, 0, 1),
        Line::with(Kind::Add, Place::M(1), 1, 1),
        Line::with(Kind::Fi, Place::None, 0, 1),
        Line::bare(Kind::End, 0),
        Line::bare(Kind::Begin, 2),
    ]
}

fn terms() -> [Term; 2] {
    [Term::word(Place::M(2)), Term::number(7)]
}

#[test]
fn of_an_accepted_script(rt: HostRuntime) {
    let [begin, guard, add, guarded, end, other] = lines();
    let all = [
        begin,
        guard,
        add,
        guarded,
        end,
        other,
        Line::bare(Kind::End, 2),
    ];
    let built = Program::build(&all, &terms());
    assert!(rt; built.is_ok());
    let Ok(program) = built else {
        return;
    };
    assert_eq!(rt; program.len(), 7);
    assert_eq!(rt; program.line(2), Some(add));
    assert_eq!(rt; program.line(7), None);
    assert_eq!(rt; program.terms(), terms().as_slice());
    assert_eq!(rt; program.expression(add).len(), 1);
    assert_eq!(rt; program.partner(1), 3);
    assert_eq!(rt; program.partner(3), 1);
    assert_eq!(rt; program.partner(2), 2);
    assert_eq!(rt; program.partner(9), 9);
    assert_eq!(rt; (program.begin(0), program.end(0)), (0, 4));
    assert_eq!(rt; (program.begin(2), program.end(2)), (5, 6));
    assert_eq!(rt; (program.begin(1), program.end(1)), (7, 7));
}

#[test]
fn of_no_script(rt: HostRuntime) {
    let program = Program::empty();
    assert_eq!(rt; program.len(), 0);
    assert_eq!(rt; program.line(0), None);
    assert_eq!(rt; program.terms().len(), 0);
    assert_eq!(rt; (program.begin(0), program.end(31)), (0, 0));
}

#[test]
fn of_a_pair_left_open(rt: HostRuntime) {
    assert_eq!(rt; numbers(check(&lines(), &terms())), (3, 6));
    let fault = Program::build(&lines(), &terms()).err();
    assert_eq!(rt; fault.map(|f| (u32::from(f.refusal), f.line)), Some((3, 6)));
}

#[test]
fn of_the_empty_script(rt: HostRuntime) {
    assert_eq!(rt; numbers(check(&[], &[])), (0, 0));
}
