//! The display and the conversion of refusals.

use indexset_core::refusal::{Refusal, Refused};
use std::alloc::Global;
use std::error::Error;
use std::test::Fail;

/// Returns the text of an error.
fn told<E: Error>(alloc: Global, error: E) -> Result<String, Fail> {
    let text = format!(in alloc; "{error} ({error:?})")?;
    Ok(text)
}

/// Returns the cause of a refusal with `?`.
fn cause_of(value: Result<(), Refused<u64>>) -> Result<(), Refusal> {
    value?;
    Ok(())
}

#[test]
fn shown_by_their_cause(rt: HostRuntime) -> Result<(), Fail> {
    let gap = told(rt.alloc(), Refusal::Gap)?;
    let refused = Refused {
        value: 7u64,
        cause: Refusal::Memory,
    };
    let text = told(rt.alloc(), refused)?;
    let gap_shown = gap.as_str() == "the event's number is not the next (Gap)";
    let shown = text.as_str() == "memory was refused (Refused { cause: Memory, .. })";
    assert!(rt; gap_shown && shown);
    Ok(())
}

#[test]
fn passed_on_by_their_cause(rt: HostRuntime) {
    let cause = Refusal::Numbers;
    let refused = Err(Refused { value: 7, cause });
    assert!(rt; cause_of(refused) == Err(Refusal::Numbers));
}
