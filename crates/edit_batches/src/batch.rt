ghost use Rattle.std.specs.Prelude.{◌≡◌, ◌<◌, ◌≤◌, ◌^◌, length, IfSome, IfNone};

use crate::op::Op;
use plain_data::Items;
use std::marker::Model;

/// Operations that are tried one after the other, each on the world after those before it, and refused whole where one is refused.
///
/// Contracts see their list.
#[derive(Debug, Drop)]
pub struct Batch {
    ops: Items<Op>,
}

impl Model for Batch {
    ghost use Rattle.std.specs.Prelude.{◌<◌, ◌^◌, length, List};
    ghost use Rattle.std.specs.Coded.{codes};
    ghost use Rattle.edit_batches.specs.declared.op.Op.{Op};
    ghost use Rattle.edit_batches.specs.contracts.op.Op as of_op;

    ghost Value = { List Op };

    ghost coded = { Prim.hlevel (codes, of_op.the_row.coded) };

    ghost view = { λ b. b.ops };

    ghost invariant = { λ b. length b.ops < 2 ^ 32 };
}

impl Batch {
    /// The batch of these operations; nothing where there are 2^32 or more. Takes no memory.
    pub fn of(ops: Items<Op>) -> Option<Batch>
        ensures ops { IfSome result (λ batch. batch ≡ ops) }
        ensures many { IfNone result (2 ^ 32 ≤ length ops) }
    {
        if ops.len() >= 4_294_967_296 {
            return None;
        }
        Some(Batch { ops })
    }

    /// The operations, in their order.
    pub fn ops(&self) -> &[Op]
        ensures ops { result.now ≡ self.now }
        ensures few { length self.now < 2 ^ 32 }
    {
        self.ops.as_slice()
    }
}
