//! A layer that is written and read again.
ghost use Rattle.std.specs.Prelude.{◌≡◌, ◌⊎◌, Ok, Err};
ghost use Rattle.sdf_specs.specs.Layers.{LayerTable};
ghost use Rattle.spec_parts.specs.declared.items.Refusal.{Refusal};
ghost use Rattle.usda_reader.specs.Reading.{Reads, IsRead, IsRefused};
ghost use Rattle.usda_reader.specs.Texts.{IsText, IsRefusedFirst};
ghost use Rattle.usda_reader.specs.declared.fault.LayerFault.TheVariants.{NoMemory};
ghost use Rattle.usda_writer.specs.Canonical.{canonical};
ghost use Rattle.proper_layers.specs.Proper.{IsProper};

use sdf_specs::Layer;
use std::alloc::Global;
use usda_reader::{LayerFault, read_layer};
use usda_writer::write_layer;

/// The layer that is read from the canonical text of a layer: a proper layer itself.
///
/// # Errors
///
/// `NoMemory`: memory ran out. `Refused`: the text of the layer, which is not proper, has this first refusal.
pub fn read_back(alloc: Global, layer: &Layer) -> Result<Layer, LayerFault>
    // A proper layer comes back, unless memory runs out.
    ensures returned { IsProper layer.now → (result ≡ Ok layer.now) ⊎ (result ≡ Err NoMemory) }
    // What is answered of any layer is what its canonical text says, or the first refusal of the text.
    ensures found { Reads result (canonical layer.now) }
    // What the canonical text says is answered, unless memory runs out.
    ensures only { (said : LayerTable) → IsText (canonical layer.now) said → IsRead result said }
    // The first refusal of the text is told, unless memory runs out.
    ensures exact { (refusal : Refusal) → IsRefusedFirst (canonical layer.now) refusal → IsRefused result refusal }
{
    let text = write_layer(alloc, layer)?;
    read_layer(alloc, text.as_slice())
}
