// Runs the check over a table of cases from standard input, and says of each whether the verdict is the expected one.
// A case is a text line `NAME REFUSAL LINE | lines | terms`, with `;` between items and `N*` before one that stands N times. A line is
// `KIND X Y Q FIRST COUNT`, a term `KIND NUMBER P1 P2`, a place `-` or a letter with its index. `#` starts a comment.

#![tactic(auto)]

mod reading;

use reading::{Case, read_case};
use script::checking::{check, numbers};

// Says how a case went; true where the verdict is the expected one.
fn judge(rt: &HostRuntime, name: &str, case: &Case) -> anyhow::Result<bool> {
    let found = numbers(check(case.lines.as_slice(), case.terms.as_slice()));
    let (refusal, line) = found;
    if found == case.verdict {
        println!(rt; "{name}: ({refusal}, {line})")?;
        return Ok(true);
    }
    let (expected, at) = case.verdict;
    println!(rt; "{name}: WRONG, ({refusal}, {line}) where ({expected}, {at}) is expected")?;
    Ok(false)
}

// The same for a text, which is wrong too where it is no case.
fn entry(rt: &HostRuntime, text: &str) -> anyhow::Result<bool> {
    match read_case(rt.alloc(), text)? {
        Some((name, case)) => judge(rt, name, &case),
        None => {
            println!(rt; "WRONG: this is no case: {text}")?;
            Ok(false)
        }
    }
}

fn main(rt: HostRuntime) -> anyhow::Result<()> {
    let mut cases: u32 = 0;
    let mut wrong: u32 = 0;
    // counted as they are told, so there is no list to count
    for text in rt.lines(rt.alloc()) {
        let text = text?;
        if text.is_empty() || text.starts_with('#') {
            continue;
        }
        cases = cases.saturating_add(1);
        if !entry(&rt, text.as_str())? {
            wrong = wrong.saturating_add(1);
        }
    }
    println!(rt; "{cases} cases, {wrong} wrong")?;
    Ok(())
}
