ghost use Rattle.std.specs.Prelude.{◌≡◌, ◌≢◌, ◌↔◌, [], Ok, None, true, false, length, slice_get, is_some, IsTrue, OnOk, OnErr, IfOk};
ghost use Rattle.std.specs.Map.{keys_of};
ghost use Rattle.std.specs.Option.{option_copied};
ghost use Rattle.sdf_paths.specs.Paths.{is_plain, is_property};
ghost use Rattle.composition.specs.World.{is_loaded};
ghost use Rattle.layer_set.specs.Named.{AreNamed, at_name, with_name};
ghost use Rattle.layer_set.specs.Rules.{AreRules, rule_at, with_rule, is_loaded_by};
ghost use Rattle.layer_set.specs.Worlds.{held_at, spec_of, present_layer, with_held};
ghost use Rattle.layer_set.specs.LookUps.{look_ups, stands_at};
ghost use Rattle.layer_set.specs.declared.held.Held.{Held};

use crate::held::Held;
use crate::key::Key;
use crate::named;
use crate::rules::Rules;
use crate::same::{arcs_of, body_of, same_heading, same_part, same_roots};
use crate::shared::Shared;
use asset_names::AssetId;
use plain_data::{copy_two, same};
use sdf_paths::Path;
use sdf_specs::{Layer, Spec};
use spec_tables::OrderedTable;
use std::alloc::{AllocError, Global};
use std::marker::Model;

/// How many names of layers a world has at most, where it was opened from files or made by batches of edits.
pub const MAX_LAYER_NAMES: usize = 4096;

/// A world: what every answer of composition is a function of. It has the names of the root and the session layer, what stands at
/// names of layers, and load rules by path. Copies share the layers and the rules.
///
/// Contracts see it as plain data.
#[derive(Drop)]
pub struct World {
    root: AssetId,
    session: Option<AssetId>,
    layers: OrderedTable<AssetId, Shared<Held>>,
    rules: Rules,
    /// What is lent for a name that has nothing.
    absent: Held,
    alloc: Global,
}

impl Model for World {
    ghost use Rattle.layer_set.specs.Worlds.{WorldData};
    ghost use Rattle.std.specs.Prelude.{◌≡◌};
    ghost use Rattle.layer_set.specs.Rules.{AreRules};
    ghost use Rattle.layer_set.specs.declared.held.Held.TheVariants.{Absent};
    ghost use Rattle.std.specs.Coded.{codes};
    ghost use Rattle.layer_set.specs.contracts.held.Held as of_held;

    ghost Value = { WorldData };

    ghost coded = { Prim.hlevel (codes, of_held.the_row.coded) };

    ghost view = { λ w. record { root = w.root; session = w.session; layers = w.layers; rules = w.rules } };

    ghost invariant = { λ w. AreRules w.rules × (w.absent ≡ Absent) };
}

/// The layer that is held, if one is.
fn layer_of(held: Held) -> Option<Layer>
    ensures { result ≡ present_layer held }
{
    match held {
        Held::Present(layer) => Some(layer),
        Held::Absent => None,
        Held::Broken(_) => None,
    }
}

impl World {
    /// The world of these names, without layers and rules. Takes no memory.
    pub fn new(alloc: Global, root: AssetId, session: Option<AssetId>) -> Result<World, AllocError>
        ensures { result ≡ Ok (record { root = root; session = session; layers = []; rules = [] }) }
    {
        Ok(World {
            root,
            session,
            layers: OrderedTable::new(alloc),
            rules: Rules::new(alloc),
            absent: Held::Absent,
            alloc,
        })
    }

    /// The name of the root layer.
    pub fn root(&self) -> &AssetId
        ensures { result.now ≡ self.now.root }
    {
        &self.root
    }

    /// The name of the session layer, if there is one.
    pub fn session(&self) -> Option<&AssetId>
        ensures { option_copied result ≡ self.now.session }
    {
        self.session.as_ref()
    }

    /// How many names there are, also of layers that are absent or broken.
    pub fn names(&self) -> usize
        ensures count { result ≡ length self.now.layers }
        ensures order { AreNamed self.now.layers }
    {
        named::count(&self.layers)
    }

    /// The name at this place, counted from 0 in the order of names; nothing past the end.
    pub fn name_at(&self, i: usize) -> Option<&AssetId>
        ensures name { option_copied result ≡ slice_get (keys_of self.now.layers) i }
        ensures order { AreNamed self.now.layers }
    {
        named::name_at(&self.layers, i)
    }

    /// Whether a name is among `names`.
    pub fn has(&self, id: &AssetId) -> bool
        ensures { result ≡ is_some (at_name id.now self.now.layers) }
    {
        named::has(&self.layers, id)
    }

    /// What stands at a name; `Absent` for a name that is not among `names`.
    pub fn held(&self, id: &AssetId) -> &Held
        ensures { result.now ≡ held_at self.now id.now }
    {
        match named::at_name(&self.layers, id) {
            Some(held) => held,
            None => &self.absent,
        }
    }

    /// The spec at a path of a layer; nothing where the layer is not present.
    pub fn spec(&self, id: &AssetId, p: &Path) -> Option<&Spec>
        ensures { option_copied result ≡ spec_of (held_at self.now id.now) p.now }
    {
        match self.held(id) {
            Held::Present(layer) => layer.get(p),
            Held::Absent => None,
            Held::Broken(_) => None,
        }
    }

    /// The load rule at a path itself.
    pub fn rule(&self, p: &Path) -> Option<bool>
        ensures { result ≡ rule_at p.now self.now.rules }
    {
        self.rules.get(p.elements())
    }

    /// Whether a prim is loaded: by the rule on itself or else on its nearest ancestor that has one; without one it is.
    pub fn loaded(&self, p: &Path) -> bool
        ensures loaded { result ≡ is_loaded_by self.now.rules p.now }
        ensures prim { is_plain p.now ≡ true → result ≡ is_loaded (look_ups self.now) p.now }
        ensures rules { AreRules self.now.rules }
    {
        self.rules.nearest(p.elements()).unwrap_or(true)
    }

    /// Puts something at a name, in place of what stands there. After want of memory the world is as before.
    pub fn put(&mut self, id: AssetId, held: Held) -> Result<(), AllocError>
        ensures ok { OnOk result (self.new ≡ record self.old { layers = with_name id held self.old.layers }) }
        ensures err { OnErr result (self.new ≡ self.old) }
    {
        named::put(self.alloc, &mut self.layers, id, held)
    }

    /// Takes the layer at a name out, to be changed and put back; nothing where no layer is present. It is copied only where another
    /// world shares it. Apart from the name the world stays as it is, also after want of memory.
    pub fn take_layer(&mut self, id: &AssetId) -> Result<Option<Layer>, AllocError>
        ensures taken { IfOk result (λ taken. taken ≡ present_layer (held_at self.old id.now)) }
        ensures none { result ≡ Ok None → self.new ≡ self.old }
        ensures rest { (held : Held) → with_held id.now held self.new ≡ with_held id.now held self.old }
    {
        match self.held(id) {
            Held::Present(_) => (),
            Held::Absent => return Ok(None),
            Held::Broken(_) => return Ok(None),
        }
        match named::take(&mut self.layers, id)? {
            Some(held) => Ok(layer_of(held)),
            None => Ok(None),
        }
    }

    /// Puts a load rule at a plain prim path, or takes it away. Rules that another world shares are copied first. After want of memory
    /// the world is as before.
    pub fn set_load(&mut self, p: &Path, rule: Option<bool>) -> Result<(), AllocError>
        requires plain { is_plain p.now ≡ true }
        requires prim { is_property p.now ≡ false }
        requires below { p.now ≢ [] }
        ensures ok { OnOk result (self.new ≡ record self.old { rules = with_rule p.now rule self.old.rules }) }
        ensures err { OnErr result (self.new ≡ self.old) }
    {
        self.rules.set(p, rule)
    }

    /// A copy that shares the layers and the rules: it costs the number of names.
    pub fn copy(&self) -> Result<World, AllocError>
        ensures { IfOk result (λ w. w ≡ self.now) }
    {
        let (root, session) = copy_two(&self.root, &self.session)?;
        match copy_two(&self.layers, &self.rules) {
            Ok((layers, rules)) => Ok(World {
                root,
                session,
                layers,
                rules,
                absent: Held::Absent,
                alloc: self.alloc,
            }),
            Err(error) => {
                drop((root, session));
                Err(error)
            }
        }
    }

    /// Whether a key has the same value in both worlds. Nothing is copied.
    pub fn same_key(&self, other: &World, key: &Key) -> bool
        ensures { IsTrue result ↔ (stands_at self.now key.now ≡ stands_at other.now key.now) }
    {
        match key {
            Key::Head(id) => self.same_head(other, id),
            Key::Arcs(id, path) => self.same_arcs(other, id, path),
            Key::Body(id, path) => self.same_body(other, id, path),
            Key::Load(path) => self.rule(path) == other.rule(path),
        }
    }

    fn same_head(&self, other: &World, id: &AssetId) -> bool
        ensures { IsTrue result ↔ (stands_at self.now (Key.Head id.now) ≡ stands_at other.now (Key.Head id.now)) }
    {
        same(&self.root, &other.root)
            && same(&self.session, &other.session)
            && same_heading(self.held(id), other.held(id))
    }

    fn same_arcs(&self, other: &World, id: &AssetId, path: &Path) -> bool
        ensures { IsTrue result ↔ (stands_at self.now (Key.Arcs id.now path.now) ≡ stands_at other.now (Key.Arcs id.now path.now)) }
    {
        path.is_root() || same_part(arcs_of(self.spec(id, path)), arcs_of(other.spec(id, path)))
    }

    fn same_body(&self, other: &World, id: &AssetId, path: &Path) -> bool
        ensures { IsTrue result ↔ (stands_at self.now (Key.Body id.now path.now) ≡ stands_at other.now (Key.Body id.now path.now)) }
    {
        if path.is_root() {
            same_roots(self.held(id), other.held(id))
        } else {
            same_part(body_of(self.spec(id, path)), body_of(other.spec(id, path)))
        }
    }
}
