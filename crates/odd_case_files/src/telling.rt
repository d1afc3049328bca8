use crate::fault::CaseFault;
use crate::outcome::{Asking, Outcome, count_differing, outcomes_of};
use std::rt::Files;

// The cases that are not read, so that it shows where something else than a case is read as one.
const MALFORMED: &str = "malformed";

// The cases whose answers are wrong on purpose, so that it shows where a comparison never differs.
const WRONG: &str = "wrong";

const CASES: &str = "cases";

/// Prints the outcome of each malformed and of each wrong case, those of the cases that differ, and how many there are.
pub fn tell_outcomes<R: Files + Print + AllocGlobal + Clone + Drop, A: Asking>(
    rt: &R,
    asking: &A,
) -> Result<(), CaseFault> {
    for folder in [MALFORMED, WRONG] {
        for outcome in outcomes_of(rt, asking, folder)? {
            println!(rt; "{outcome}")?;
        }
    }
    tell_differing(rt, outcomes_of(rt, asking, CASES)?.as_slice())
}

// Prints the outcomes that differ, and how many there are.
fn tell_differing(rt: &impl Print, outcomes: &[Outcome]) -> Result<(), CaseFault> {
    for outcome in outcomes {
        if outcome.difference.is_some() {
            println!(rt; "{outcome}")?;
        }
    }
    let count = outcomes.len();
    let differing = count_differing(outcomes);
    println!(rt; "{count} cases, {differing} differ")?;
    Ok(())
}
