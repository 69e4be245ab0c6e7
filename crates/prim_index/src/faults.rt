//! Faults, each once.
ghost use Rattle.std.specs.Prelude.{◌≡◌, IfOk};
ghost use Rattle.prim_index.specs.Once.{faults_once};

use plain_data::{Items, Text, copy};
use prim_view::{PrimFault, print_fault};
use spec_tables::OrderedTable;
use std::alloc::{AllocError, Global};

/// Of faults of one text the first.
///
/// # Errors
///
/// Memory ran out.
pub fn faults_once(alloc: Global, faults: &[PrimFault]) -> Result<Items<PrimFault>, AllocError>
    ensures { IfOk result (λ once. once ≡ faults_once faults.now) }
{
    let mut met: OrderedTable<Text, bool> = OrderedTable::new(alloc);
    let mut once = Items::new(alloc);
    for fault in faults {
        let text = Text::from_string(print_fault(alloc, fault)?);
        if !met.has(&text) {
            met.insert(text, true)?;
            once.push(copy(fault)?)?;
        }
    }
    Ok(once)
}
