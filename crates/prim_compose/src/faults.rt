//! Faults, each once.
ghost use Rattle.std.specs.Prelude.{◌≡◌, ◌++◌, IfOk};
ghost use Rattle.prim_index.specs.Once.{faults_once};

use list_ops::push_all;
use plain_data::Items;
use prim_index::faults_once;
use prim_view::PrimFault;
use std::alloc::{AllocError, Global};

/// Faults after faults, each once.
pub fn faults_after(
    alloc: Global,
    first: Items<PrimFault>,
    last: &[PrimFault],
) -> Result<Items<PrimFault>, AllocError>
    ensures { IfOk result (λ once. once ≡ faults_once (first ++ last.now)) }
{
    let mut all = first;
    push_all(&mut all, last)?;
    faults_once(alloc, all.as_slice())
}
