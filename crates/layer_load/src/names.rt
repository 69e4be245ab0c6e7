ghost use Rattle.std.specs.Prelude.{◌≡◌, [], fold, length, slice_get, OnOk};

use asset_names::AssetId;
use layer_set::anchored;
use plain_data::{Items, Text, copy};
use spec_tables::OrderedTable;
use std::alloc::{AllocError, Global};

/// Names in the order in which they were met, each once.
#[derive(Drop)]
pub struct Names {
    /// The names, the one that was met first in front.
    pub listed: Items<AssetId>,
    /// The same names in a table, by which one is looked up; the values say nothing.
    pub met: OrderedTable<AssetId, bool>,
}

impl Names {
    ghost use Rattle.std.specs.Option.{option_copied};
    ghost use Rattle.layer_stack.specs.Meant.{noted};
    ghost use Rattle.layer_load.specs.Opening.{with_asset};
    ghost use Rattle.layer_load.specs.Drafts.{AreMet};

    /// No names. Takes no memory.
    pub fn new(alloc: Global) -> Names
        ensures listed { result.listed ≡ [] }
        ensures met { AreMet result }
    {
        Names {
            listed: Items::new(alloc),
            met: OrderedTable::new(alloc),
        }
    }

    /// How many names there are.
    pub fn len(&self) -> usize
        ensures { result ≡ length self.now.listed }
    {
        self.listed.len()
    }

    /// The name at this place, counted from 0.
    pub fn at(&self, place: usize) -> Option<&AssetId>
        ensures { option_copied result ≡ slice_get self.now.listed place }
    {
        self.listed.get(place)
    }

    /// Adds a name, unless it is there.
    pub fn note(&mut self, name: AssetId) -> Result<(), AllocError>
        requires { AreMet self.old }
        ensures listed { OnOk result (self.new.listed ≡ noted self.old.listed name) }
        ensures met { OnOk result (AreMet self.new) }
    {
        if self.met.has(&name) {
            return Ok(());
        }
        self.met.insert(copy(&name)?, true)?;
        self.listed.push(name)?;
        Ok(())
    }

    /// Adds the name of an asset of a layer, if it has one.
    fn note_asset(&mut self, alloc: Global, layer: &AssetId, asset: &Text) -> Result<(), AllocError>
        requires { AreMet self.old }
        ensures listed { OnOk result (self.new.listed ≡ with_asset layer.now self.old.listed asset.now) }
        ensures met { OnOk result (AreMet self.new) }
    {
        match anchored(alloc, layer, asset.as_str())? {
            Some(name) => self.note(name),
            None => Ok(()),
        }
    }

    /// Adds the names of the assets of a layer.
    pub fn note_assets(
        &mut self,
        alloc: Global,
        layer: &AssetId,
        assets: &[Text],
    ) -> Result<(), AllocError>
        requires { AreMet self.old }
        ensures listed { OnOk result (self.new.listed ≡ fold (with_asset layer.now) self.old.listed assets.now) }
        ensures met { OnOk result (AreMet self.new) }
    {
        for asset in assets {
            self.note_asset(alloc, layer, asset)?;
        }
        Ok(())
    }
}
