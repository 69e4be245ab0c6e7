//! What faults of paths, numbers, times and offsets say of themselves.
use sdf_paths::PathFault;
use sdf_values::{NumberFault, OffsetRange, TimeRange};
use std::alloc::Global;
use std::fmt::Display;
use std::test::Fail;

/// Whether a fault says this of itself.
fn says<F: Display>(alloc: Global, fault: &F, text: &str) -> Result<bool, Fail> {
    let said = format!(in alloc; "{fault}")?;
    Ok(said.as_str() == text)
}

#[test]
fn faults_of_paths_say_why(rt: HostRuntime) -> Result<(), Fail> {
    let bad = PathFault::Bad { at: 7 };
    assert!(rt;
        says(rt.alloc(), &bad, "no path goes on at byte 7")?
            && says(rt.alloc(), &PathFault::NoMemory, "out of memory")?
    );
    Ok(())
}

#[test]
fn faults_of_values_say_why(rt: HostRuntime) -> Result<(), Fail> {
    let bad = NumberFault::BadNumber { at: 0 };
    let long = "a number has at most 34 digits and an exponent within 400 of 0";
    let time = "a time is within 10^12 of 0 and has at most 18 decimals";
    let offset = "a scale is from 1 to 1,000,000, an offset within 1,000,000,000 of 0";
    assert!(rt;
        says(rt.alloc(), &bad, "no number goes on at byte 0")?
            && says(rt.alloc(), &NumberFault::NumberTooLong, long)?
            && says(rt.alloc(), &TimeRange, time)?
            && says(rt.alloc(), &OffsetRange, offset)?
    );
    Ok(())
}
