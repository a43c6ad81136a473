// Whole sessions: any calls on a newly opened screen.

ghost use Rattle.std.specs.Prelude.{◌≡◌, map, slice_set};
ghost use Rattle.reversible.specs.Ledger.{screen_call};
ghost use Rattle.rules.specs.Ledger.{screen_rules};
ghost use Rattle.screen.specs.Model.{model};
ghost use Rattle.screen.specs.declared.words.Reply.TheVariants.{Numbers};
ghost use Rattle.screen.specs.Sessions.{call_of, reply_of, Played, Rehearsed};

use crate::parts::Screen;
use crate::words::{Call, Reply};
use store::Store;

// The reply of a call that answers refusal, line and steps.
fn numbers(answer: (u32, u32, u32)) -> Reply
    ensures { result ≡ Numbers answer.0 answer.1 answer.2 }
{
    let (refusal, line, steps) = answer;
    Reply::Numbers(refusal, line, steps)
}

// Makes one call on a screen.
pub fn make_call<S: Store>(screen: &mut Screen<S>, call: Call) -> Reply
    ensures answer { result ≡ reply_of (screen_call screen_rules (model S.book screen.old) (call_of call.entry)).0 }
    ensures screen { model S.book screen.new ≡ (screen_call screen_rules (model S.book screen.old) (call_of call.entry)).1 }
{
    match call {
        Call::Load(lines, terms) => numbers(screen.load(lines, terms)),
        Call::Apply(q, budget) => numbers(screen.apply(q, budget)),
        Call::Back => numbers(screen.back()),
        Call::Look(w) => {
            let (refusal, word) = screen.look(w);
            Reply::Word(refusal, word)
        }
    }
}

// Keeps a reply where there is a place for it; `get_mut` would read no plainer.
fn keep(replies: &mut [Reply], at: usize, reply: Reply)
    ensures { replies.new ≡ slice_set replies.old at reply }
{
    if at < replies.len() {
        replies[at] = reply;
    }
}

// Opens a screen on the store and makes these calls. The replies go to the front of the slice, as many as it holds.
pub fn play<S: Store>(store: S, calls: &[Call], replies: &mut [Reply]) -> Screen<S>
    ensures { Played (S.book store) (map call_of calls.now) replies.old replies.new (model S.book result) }
{
    let mut screen = Screen::open(store);
    for (k, call) in calls.iter().enumerate() {
        let reply = make_call(&mut screen, *call);
        keep(replies, k, reply);
    }
    screen
}

// Plays the same calls on two stores of any two kinds, and hands both over. Its contract is the whole promise.
pub fn rehearse<A: Store, B: Store>(
    a: A,
    b: B,
    calls: &[Call],
    first: &mut [Reply],
    second: &mut [Reply],
) -> (A, B)
    ensures { Rehearsed (A.book a) (B.book b) (map call_of calls.now) first.old first.new second.old second.new (A.book result.0) (B.book result.1) }
{
    let left = play(a, calls, first);
    let right = play(b, calls, second);
    (left.close(), right.close())
}
