//! What the fault of a layer's table says of itself.
use sdf_specs::PutRefused;
use std::alloc::Global;
use std::test::Fail;

/// Whether the fault says this of itself.
fn says(alloc: Global, fault: PutRefused, text: &str) -> Result<bool, Fail> {
    let said = format!(in alloc; "{fault}")?;
    Ok(said.as_str() == text)
}

#[test]
fn faults_of_layers_say_why(rt: HostRuntime) -> Result<(), Fail> {
    let owner = "the layer has no spec for the owner of this path";
    assert!(rt;
        says(rt.alloc(), PutRefused::NoParent, owner)?
            && says(rt.alloc(), PutRefused::NoMemory, "out of memory")?
    );
    Ok(())
}
