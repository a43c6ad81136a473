// The numbers of endings.

use crate::{Stopped, numbers};
use rules::Refusal;

#[test]
fn finished_in_steps(rt: HostRuntime) {
    assert_eq!(rt; numbers(Ok(5)), (0, 0, 5));
}

#[test]
fn stopped_at_a_line(rt: HostRuntime) {
    let stopped = Stopped {
        refusal: Refusal::ZeroDivisor,
        line: 3,
        steps: 2,
    };
    assert_eq!(rt; numbers(Err(stopped)), (11, 3, 2));
}

#[test]
fn refused_before_the_first_line(rt: HostRuntime) {
    assert_eq!(rt;
        numbers(Err(Stopped::from(Refusal::NoSuchMethod))),
        (20, 0, 0)
    );
}
