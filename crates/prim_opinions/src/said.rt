ghost use Rattle.std.specs.Prelude.{◌≡◌};

use crate::offset::StageOffset;
use asset_names::AssetId;
use prim_view::Site;
use sdf_specs::Spec;
use std::marker::Model;

/// What one layer says of a prim at one of its sites.
#[derive(Drop)]
pub struct SaidAt<'w, 's> {
    site: &'s Site,
    layer: AssetId,
    offset: StageOffset,
    spec: &'w Spec,
}

impl<'w, 's> Model for SaidAt<'w, 's> {
    ghost use Rattle.composition.specs.Opinions.{Said};
    ghost use Rattle.std.specs.Coded.{codes};
    ghost use Rattle.prim_view.specs.contracts.site.Site as of_site;
    ghost use Rattle.spec_parts.specs.contracts.spec.Spec as of_spec;

    ghost Value = { Said };

    ghost coded = { Prim.hlevel (codes, of_site.the_row.coded, of_spec.the_row.coded) };

    ghost view = { λ s. record { site = s.site.now; layer = s.layer; offset = s.offset; spec = s.spec.now } };
}

impl<'w, 's> SaidAt<'w, 's> {
    /// What a layer of a stack says at a site.
    pub fn new(
        site: &'s Site,
        layer: AssetId,
        offset: StageOffset,
        spec: &'w Spec,
    ) -> SaidAt<'w, 's>
        ensures { result ≡ record { site = site.now; layer = layer; offset = offset; spec = spec.now } }
    {
        SaidAt {
            site,
            layer,
            offset,
            spec,
        }
    }

    /// The site.
    pub fn site(&self) -> &'s Site
        ensures { result.now ≡ self.now.site }
    {
        self.site
    }

    /// The layer.
    pub fn layer(&self) -> &AssetId
        ensures { result.now ≡ self.now.layer }
    {
        &self.layer
    }

    /// How times of the layer become those of the stage.
    pub fn offset(&self) -> StageOffset
        ensures { result ≡ self.now.offset }
    {
        self.offset
    }

    /// What the layer says there.
    pub fn spec(&self) -> &'w Spec
        ensures { result.now ≡ self.now.spec }
    {
        self.spec
    }
}
