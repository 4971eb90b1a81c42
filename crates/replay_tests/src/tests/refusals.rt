//! Texts of refusals: of a difference, for which the program has a fault of its own, and of want of memory.
use replay::ReplayError;
use std::alloc::Global;
use std::process::Abort;

/// A refusal is printed as this text.
fn prints(rt: &impl Abort, alloc: Global, refusal: ReplayError, text: &str) {
    let printed = format!(in alloc; "{refusal}").expect(rt, "memory");
    assert_eq!(rt; printed.as_str(), text);
}

#[test]
fn prints_its_refusals(rt: HostRuntime) {
    let fault = ReplayError::Mismatch {
        channel: 1,
        number: 3,
    };
    prints(&rt, rt.alloc(), fault, "Y1 channel 1 number 3");
    prints(&rt, rt.alloc(), ReplayError::Memory, "memory");
}
