//! Prims, variant sets and variants: how they are named, begun and ended.
ghost use Rattle.std.specs.Prelude.{◌≡◌, IfOk, OnOk};
ghost use Rattle.usda_lists.specs.Acts.{Does as DoesPart};
ghost use Rattle.usda_drafts.specs.Refusals.{Does};
ghost use Rattle.usda_drafts.specs.Prims.{specifier_of, specifier_act, prim_type_act, entered, prim_at, with_prim, entered_prim, named_prim, prim_name_act, open_act, begun_set, set_name_act, with_variant_at, entered_variant, named_variant, variant_name_act, with_statement_over, left, body_end_act};

use crate::draft::{Draft, Opening};
use crate::fault::{ActFault, refuse};
use crate::owner::Owner;
use crate::places::{prim_place, variant_place};
use crate::table::{has_spec, put_closed};
use plain_data::{Text, copy};
use sdf_paths::Path;
use sdf_values::RefusalKind;
use spec_parts::Specifier;
use std::alloc::{AllocError, Global};
use std::mem;
use usda_fields::{identifier_of, variant_of};
use usda_statements::PropertyDraft;
use usda_values::PartFault;

#[tactic(auto, unfolding(crate::specs::Prims::specifier_of))]
fn specifier_of(word: &str) -> Specifier
    ensures { result ≡ specifier_of word.now }
{
    match word {
        "def" => Specifier::Def,
        "class" => Specifier::Class,
        _ => Specifier::Over,
    }
}

/// The prim that begins, at a path.
#[tactic(auto, unfolding(crate::specs::Prims::prim_at))]
fn prim_at(alloc: Global, path: Path, opening: &Opening) -> Result<Owner, AllocError>
    ensures { IfOk result (λ prim. prim ≡ prim_at path opening.now) }
{
    let type_name = copy(&opening.type_name)?;
    Owner::new(alloc, path, opening.specifier, type_name)
}

impl Draft {
    /// The specifier of a prim that begins.
    #[tactic(auto, unfolding(crate::specs::Prims::specifier_act))]
    pub(crate) fn take_specifier(&mut self, word: &str) -> Result<(), ActFault>
        ensures { Does result self.new (specifier_act word.now self.old) }
    {
        self.opening = Opening {
            specifier: specifier_of(word),
            type_name: None,
            is_too_deep: false,
        };
        Ok(())
    }

    /// The type of a prim that begins.
    #[tactic(auto, unfolding(crate::specs::Prims::prim_type_act))]
    pub(crate) fn take_prim_type(&mut self, word: &str) -> Result<(), ActFault>
        ensures { Does result self.new (prim_type_act word.now self.old) }
    {
        self.opening.type_name = Some(Text::of(self.outer.allocator(), word)?);
        Ok(())
    }

    /// Another owner, inside the innermost.
    #[tactic(auto, unfolding(crate::specs::Prims::entered))]
    fn enter(&mut self, owner: Owner) -> Result<(), AllocError>
        ensures { OnOk result (self.new ≡ entered owner self.old) }
    {
        let outer = mem::replace(&mut self.owner, owner);
        self.outer.push(outer)
    }

    /// The mark that opens the metadata or the body of a prim or a variant.
    #[tactic(auto, unfolding(crate::specs::Prims::open_act))]
    pub(crate) fn take_open(&mut self, at: usize) -> Result<(), ActFault>
        ensures { Does result self.new (open_act at self.old) }
    {
        if self.opening.is_too_deep {
            return refuse(RefusalKind::TooDeep, at);
        }
        Ok(())
    }

    /// The prim that begins, below the innermost owner.
    #[tactic(auto, unfolding(crate::specs::Prims::with_prim))]
    fn add_prim(&mut self, name: Text, path: Path) -> Result<(), AllocError>
        ensures { OnOk result (self.new ≡ with_prim name path self.old) }
    {
        self.owner.add_child(name)?;
        let prim = prim_at(self.outer.allocator(), path, &self.opening)?;
        self.enter(prim)
    }

    /// A prim at a path below the innermost owner.
    #[tactic(auto, unfolding(crate::specs::Prims::entered_prim))]
    fn enter_prim(&mut self, name: Text, path: Option<Path>) -> Result<(), PartFault>
        ensures { DoesPart result self.new (entered_prim name path self.old) }
    {
        let Some(path) = path else {
            self.opening.is_too_deep = true;
            return Ok(());
        };
        if has_spec(&self.specs, &path) {
            return Err(PartFault::Refused(RefusalKind::DuplicateSpec));
        }
        self.add_prim(name, path)?;
        Ok(())
    }

    /// A prim of this name.
    #[tactic(auto, unfolding(crate::specs::Prims::named_prim))]
    fn name_prim(&mut self, name: Text) -> Result<(), PartFault>
        ensures { DoesPart result self.new (named_prim name self.old) }
    {
        let alloc = self.outer.allocator();
        match prim_place(alloc, &self.owner.said.path, &name) {
            Ok(path) => self.enter_prim(name, path),
            Err(fault) => Err(fault),
        }
    }

    /// The string that names a prim.
    #[tactic(auto, unfolding(crate::specs::Prims::prim_name_act))]
    pub(crate) fn take_prim_name(&mut self, token: &str) -> Result<(), PartFault>
        ensures { DoesPart result self.new (prim_name_act token.now self.old) }
    {
        match identifier_of(self.outer.allocator(), token) {
            Ok(name) => self.name_prim(name),
            Err(fault) => Err(fault),
        }
    }

    #[tactic(auto, unfolding(crate::specs::Prims::begun_set))]
    fn begin_set(&mut self, name: Text) -> Result<(), PartFault>
        ensures { DoesPart result self.new (begun_set name self.old) }
    {
        if self.owner.has_set(&name) {
            return Err(PartFault::Refused(RefusalKind::DuplicateSpec));
        }
        self.owner.add_set(self.outer.allocator(), name)?;
        Ok(())
    }

    /// The string that names a variant set.
    #[tactic(auto, unfolding(crate::specs::Prims::set_name_act))]
    pub(crate) fn take_set_name(&mut self, token: &str) -> Result<(), PartFault>
        ensures { DoesPart result self.new (set_name_act token.now self.old) }
    {
        match identifier_of(self.outer.allocator(), token) {
            Ok(name) => self.begin_set(name),
            Err(fault) => Err(fault),
        }
    }

    /// A variant of the innermost owner.
    #[tactic(auto, unfolding(crate::specs::Prims::with_variant_at))]
    fn add_variant(&mut self, name: Text, path: Path) -> Result<(), AllocError>
        ensures { OnOk result (self.new ≡ with_variant_at name path self.old) }
    {
        self.owner.add_variant(name)?;
        let variant = Owner::new(self.outer.allocator(), path, Specifier::Over, None)?;
        self.enter(variant)
    }

    /// A variant at a path.
    #[tactic(auto, unfolding(crate::specs::Prims::entered_variant))]
    fn enter_variant(&mut self, name: Text, path: Path) -> Result<(), PartFault>
        ensures { DoesPart result self.new (entered_variant name path self.old) }
    {
        if has_spec(&self.specs, &path) {
            return Err(PartFault::Refused(RefusalKind::DuplicateSpec));
        }
        self.add_variant(name, path)?;
        Ok(())
    }

    /// A variant of this name, of the set that is read.
    #[tactic(auto, unfolding(crate::specs::Prims::named_variant))]
    fn name_variant(&mut self, name: Text) -> Result<(), PartFault>
        ensures { DoesPart result self.new (named_variant name self.old) }
    {
        let alloc = self.outer.allocator();
        match variant_place(alloc, &self.owner.said.path, &self.owner.set, &name) {
            Ok(path) => self.enter_variant(name, path),
            Err(fault) => Err(fault),
        }
    }

    /// The string that names a variant.
    #[tactic(auto, unfolding(crate::specs::Prims::variant_name_act))]
    pub(crate) fn take_variant_name(&mut self, token: &str) -> Result<(), PartFault>
        ensures { DoesPart result self.new (variant_name_act token.now self.old) }
    {
        match variant_of(self.outer.allocator(), token) {
            Ok(name) => self.name_variant(name),
            Err(fault) => Err(fault),
        }
    }

    /// The statement in hand is over.
    #[tactic(auto, unfolding(crate::specs::Prims::with_statement_over))]
    pub(crate) fn end_statement(&mut self) -> Result<(), AllocError>
        ensures { OnOk result (self.new ≡ with_statement_over self.old) }
    {
        let none = PropertyDraft::none(self.outer.allocator());
        let property = mem::replace(&mut self.property, none);
        self.owner.settle(property)
    }

    /// The innermost owner is over.
    #[tactic(auto, unfolding(crate::specs::Prims::left))]
    fn leave(&mut self) -> Result<(), AllocError>
        ensures { OnOk result (self.new ≡ left self.old) }
    {
        let path = copy(&self.owner.said.path)?;
        let Some(outer) = self.outer.pop() else {
            return Ok(());
        };
        let inner = mem::replace(&mut self.owner, outer);
        put_closed(&mut self.specs, path, inner)?;
        Ok(())
    }

    /// The `}` of a prim or a variant.
    #[tactic(auto, unfolding(crate::specs::Prims::body_end_act))]
    pub(crate) fn take_body_end(&mut self) -> Result<(), ActFault>
        ensures { Does result self.new (body_end_act self.old) }
    {
        self.end_statement()?;
        self.leave()?;
        Ok(())
    }
}
