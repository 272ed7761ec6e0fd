//! The texts of the refusals that no program prints.

use pt_carrier::{Cause, PostCause};
use pt_slots::InsertError;
use std::alloc::Global;
use std::fmt::Display;
use std::process::Abort;

/// It is printed so.
fn says<T: Display>(rt: &impl Abort, alloc: Global, refusal: &T, wanted: &str) {
    let text = refusal.to_string(alloc).expect(rt, "memory");
    assert_eq!(rt; text.as_str(), wanted);
}

#[test]
fn refusals_say_why(rt: HostRuntime) {
    let full: InsertError<u32> = InsertError::Full(7);
    says(&rt, rt.alloc(), &full, "every slot is taken or retired");
    says(&rt, rt.alloc(), &PostCause::Full, "the lane is full");
    says(
        &rt,
        rt.alloc(),
        &Cause::Memory,
        "no memory for the letters left over",
    );
}
