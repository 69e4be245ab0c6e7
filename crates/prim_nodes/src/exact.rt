//! Copies that are the value itself.
use crate::arcs::{Authored, Branch, Lead, Outcome};
use crate::here::Chosen;
use crate::node::{Frame, Node};
use plain_data::{ExactClone, copy};
use std::alloc::AllocError;

impl Clone for Lead {
    ghost use Rattle.std.specs.Prelude.{◌≡◌};

    ghost is_clone = { λ x y. y ≡ x };

    fn clone(&self) -> Result<Lead, AllocError> {
        Ok(Lead {
            stack: copy(&self.stack)?,
            target: copy(&self.target)?,
            offset: self.offset,
        })
    }
}

impl ExactClone for Lead {
    ghost copy_is_same = { λ x y h. h };
}

impl Clone for Outcome {
    ghost use Rattle.std.specs.Prelude.{◌≡◌};

    ghost is_clone = { λ x y. y ≡ x };

    fn clone(&self) -> Result<Outcome, AllocError> {
        match self {
            Outcome::Leads(lead) => Ok(Outcome::Leads(copy(lead)?)),
            Outcome::GivesNoArc(reason) => Ok(Outcome::GivesNoArc(*reason)),
        }
    }
}

impl ExactClone for Outcome {
    ghost copy_is_same = { λ x y h. h };
}

impl Clone for Authored {
    ghost use Rattle.std.specs.Prelude.{◌≡◌};

    ghost is_clone = { λ x y. y ≡ x };

    fn clone(&self) -> Result<Authored, AllocError> {
        Ok(Authored {
            item: copy(&self.item)?,
            author: copy(&self.author)?,
            outcome: copy(&self.outcome)?,
        })
    }
}

impl ExactClone for Authored {
    ghost copy_is_same = { λ x y h. h };
}

impl Clone for Branch {
    ghost use Rattle.std.specs.Prelude.{◌≡◌};

    ghost is_clone = { λ x y. y ≡ x };

    fn clone(&self) -> Result<Branch, AllocError> {
        Ok(Branch {
            kind: self.kind,
            level: self.level,
            lead: copy(&self.lead)?,
            lifted: self.lifted,
        })
    }
}

impl ExactClone for Branch {
    ghost copy_is_same = { λ x y h. h };
}

impl Clone for Chosen {
    ghost use Rattle.std.specs.Prelude.{◌≡◌};

    ghost is_clone = { λ x y. y ≡ x };

    fn clone(&self) -> Result<Chosen, AllocError> {
        Ok(Chosen {
            level: self.level,
            target: copy(&self.target)?,
        })
    }
}

impl ExactClone for Chosen {
    ghost copy_is_same = { λ x y h. h };
}

impl Clone for Frame {
    ghost use Rattle.std.specs.Prelude.{◌≡◌};

    ghost is_clone = { λ x y. y ≡ x };

    fn clone(&self) -> Result<Frame, AllocError> {
        Ok(Frame {
            choices: copy(&self.choices)?,
            loaded: self.loaded,
            overgrown: self.overgrown,
        })
    }
}

impl ExactClone for Frame {
    ghost copy_is_same = { λ x y h. h };
}

impl Clone for Node {
    ghost use Rattle.std.specs.Prelude.{◌≡◌};

    ghost is_clone = { λ x y. y ≡ x };

    fn clone(&self) -> Result<Node, AllocError> {
        Ok(Node {
            stack: copy(&self.stack)?,
            path: copy(&self.path)?,
            frames: copy(&self.frames)?,
            chain: copy(&self.chain)?,
            depth: self.depth,
            offset: self.offset,
            maps: copy(&self.maps)?,
        })
    }
}

impl ExactClone for Node {
    ghost copy_is_same = { λ x y h. h };
}
