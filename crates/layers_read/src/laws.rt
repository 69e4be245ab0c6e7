//! What holds of each layer that a text says, each law as the clause of a function that does nothing.
ghost use Rattle.layers_read.specs.Laws.{SaidIsRead, SaidPropertiesAreProper, LayersAreRead};

/// What a text says of the layer, of its prims and of its variants in their metadata and their orders is proper.
pub fn said_is_read()
    ensures { SaidIsRead }
{}

/// Each property that a text says is proper.
pub fn said_properties_are_proper()
    ensures { SaidPropertiesAreProper }
{}

/// Each layer that a text says is proper, where its canonical text is no longer than a text may be.
pub fn layers_are_read()
    ensures { LayersAreRead }
{}
