ghost use Rattle.std.specs.Prelude.{◌≡◌, ◌<◌, ◌≤◌, ℕ, length, IfOk, IsOk, Err};
ghost use Rattle.asset_names.specs.Anchoring.{normal_name};

use crate::kind::kind_of;
use crate::path::{anchored_name, first_fault, normal_name};
use plain_data::{ExactClone, ExactEq, ExactOrd, Text};
use std::alloc::{AllocError, Global};
use std::marker::Model;
use thiserror::Error;

/// What kind of layer a name is for.
#[derive(Clone, Copy, Debug, PartialEq, Eq)]
pub enum NameKind {
    /// A text layer.
    Plain,
    /// `.usdc` at the end: a binary layer.
    Crate,
    /// `.usdz` at the end or `.usdz[` inside: a package of layers, or a part of one.
    Package,
}

/// Why a text is no name of a layer.
#[derive(Clone, Copy, Debug, PartialEq, Eq, Error)]
pub enum AssetFault {
    /// The text has a character below space or is empty, or the name is longer than 4,096 bytes.
    #[error("no layer has this name: byte {at}")]
    BadAsset {
        /// The byte at which the character stands; 0 where the text is empty, and 4096 where the name is too long.
        at: usize,
    },
    /// Memory ran out.
    #[error("out of memory")]
    NoMemory,
}

impl From<AllocError> for AssetFault {
    ghost use Rattle.std.specs.Prelude.{◌≡◌};
    ghost use Rattle.asset_names.specs.declared.name.AssetFault.TheVariants.{NoMemory};

    ghost from_gives = { λ _ e. e ≡ NoMemory };

    fn from(_error: AllocError) -> AssetFault {
        AssetFault::NoMemory
    }
}

/// The normalised name of a layer.
///
/// It has no empty segment and no `.`, and `..` only at the start of a relative name: `normalised_names_stay`.
#[derive(Clone, Debug, Drop, PartialEq, Eq, PartialOrd, Ord)]
pub struct AssetId {
    name: Text,
}

impl Model for AssetId {
    ghost use Rattle.std.specs.Prelude.{List, ℕ};
    ghost use Rattle.asset_names.specs.Anchoring.{IsNormal};

    ghost Value = { List ℕ };

    ghost view = { λ a. a.name };

    ghost invariant = { λ a. IsNormal a.name };

    ghost inverse = { λ n. record { name = n } };
}

impl AssetId {
    ghost use Rattle.asset_names.specs.Anchoring.{normal_name, anchored_name, kind_of, IsBad, IsClean};

    /// The name that a text gives by itself.
    pub fn of_word(alloc: Global, word: &str) -> Result<AssetId, AssetFault>
        ensures name { IfOk result (λ id. id ≡ normal_name word.now) }
        ensures good { IsOk result → (at : ℕ) → IsBad word.now (normal_name word.now) at → ⊥ }
        ensures bad { (at : ℕ) → result ≡ Err (AssetFault.BadAsset at) → IsBad word.now (normal_name word.now) at }
        // A character below space and an empty text are told before memory is asked for.
        ensures memory { result ≡ Err AssetFault.NoMemory → IsClean word.now }
    {
        match first_fault(word) {
            Some(at) => Err(AssetFault::BadAsset { at }),
            None => checked(normal_name(alloc, word)?),
        }
    }

    /// The name that an asset has in a layer: an asset that begins with `/` stands alone, any other is taken from the
    /// folder of the layer.
    pub fn anchor(alloc: Global, layer: &AssetId, asset: &str) -> Result<AssetId, AssetFault>
        ensures name { IfOk result (λ id. id ≡ anchored_name layer.now asset.now) }
        ensures good { IsOk result → (at : ℕ) → IsBad asset.now (anchored_name layer.now asset.now) at → ⊥ }
        ensures bad { (at : ℕ) → result ≡ Err (AssetFault.BadAsset at) → IsBad asset.now (anchored_name layer.now asset.now) at }
        // A character below space and an empty text are told before memory is asked for.
        ensures memory { result ≡ Err AssetFault.NoMemory → IsClean asset.now }
    {
        match first_fault(asset) {
            Some(at) => Err(AssetFault::BadAsset { at }),
            None => checked(anchored_name(alloc, layer.text(), asset)?),
        }
    }

    /// What kind of layer the name is for, by the name alone.
    pub fn name_kind(&self) -> NameKind
        ensures { result ≡ kind_of self.now }
    {
        kind_of(self.text().as_bytes())
    }

    /// The normalised name. It gives itself: `of_word` of it is this name.
    pub fn text(&self) -> &str
        ensures same { result.now ≡ self.now }
        ensures normal { normal_name self.now ≡ self.now }
    {
        self.name.as_str()
    }
}

fn checked(name: Text) -> Result<AssetId, AssetFault>
    requires { normal_name name ≡ name }
    ensures ok { IfOk result (λ id. id ≡ name) }
    ensures short { IsOk result → length name ≤ 4096 }
    ensures long { (at : ℕ) → result ≡ Err (AssetFault.BadAsset at) → (at ≡ 4096) × (4096 < length name) }
{
    if name.len() > 4096 {
        return Err(AssetFault::BadAsset { at: 4096 });
    }
    Ok(AssetId { name })
}

impl ExactClone for AssetId {
    ghost use Rattle.std.proofs.Common.{rules};

    ghost copy_is_same = { λ x y h. Prim.search rules };
}

impl ExactEq for AssetId {
    ghost use Rattle.plain_data.specs.Exact.{text_same};

    ghost equal_is_same = { text_same };
}

impl ExactOrd for AssetId {
    ghost use Rattle.std.proofs.lemmas.Map.Lookups.{exact_bytes};

    ghost tie_is_same = { λ x y h. exact_bytes x y h };
}
