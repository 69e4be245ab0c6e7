//! What faults of names of layers, of batches and of opening say of themselves.
use asset_names::{AssetFault, AssetId};
use edit_batches::{EditFault, EditRefused};
use layer_load::LoadFault;
use std::alloc::Global;
use std::fmt::Display;
use std::test::Fail;

/// Whether a fault says this of itself.
fn says<F: Display>(alloc: Global, fault: &F, text: &str) -> Result<bool, Fail> {
    let said = format!(in alloc; "{fault}")?;
    Ok(said.as_str() == text)
}

#[test]
fn faults_of_names_say_why(rt: HostRuntime) -> Result<(), Fail> {
    let bad = AssetFault::BadAsset { at: 4096 };
    assert!(rt;
        says(rt.alloc(), &bad, "no layer has this name: byte 4096")?
            && says(rt.alloc(), &AssetFault::NoMemory, "out of memory")?
    );
    Ok(())
}

#[test]
fn faults_of_batches_say_why(rt: HostRuntime) -> Result<(), Fail> {
    let fault = EditFault::BadArc;
    let refused = EditRefused::Op { op: 2, fault };
    assert!(rt;
        says(
            rt.alloc(),
            &refused,
            "operation 2: the arc leads to no prim"
        )? && says(rt.alloc(), &EditRefused::NoMemory, "out of memory")?
    );
    Ok(())
}

/// Whether a failed opening says this of itself.
fn opening_says(alloc: Global, fault: LoadFault, text: &str) -> Result<bool, Fail> {
    let said = says(alloc, &fault, text);
    drop(fault);
    said
}

/// A root layer that is not there.
fn absent_root(alloc: Global) -> Result<LoadFault, Fail> {
    let name = AssetId::of_word(alloc, "root.usda")?;
    Ok(LoadFault::RootRefused {
        name,
        refusal: None,
    })
}

#[test]
fn an_absent_root_says_so(rt: HostRuntime) -> Result<(), Fail> {
    let text = "the root or the session layer is absent or refused";
    assert!(rt; opening_says(rt.alloc(), absent_root(rt.alloc())?, text)?);
    Ok(())
}

#[test]
fn a_failed_opening_says_why(rt: HostRuntime) -> Result<(), Fail> {
    assert!(rt; opening_says(rt.alloc(), LoadFault::ReadFault, "reading failed")?);
    Ok(())
}

#[test]
fn a_large_opening_says_why(rt: HostRuntime) -> Result<(), Fail> {
    let text = "too many layers or bytes";
    assert!(rt; opening_says(rt.alloc(), LoadFault::WorldTooLarge, text)?);
    Ok(())
}

#[test]
fn an_opening_without_memory_says_why(rt: HostRuntime) -> Result<(), Fail> {
    assert!(rt; opening_says(rt.alloc(), LoadFault::NoMemory, "out of memory")?);
    Ok(())
}
