//! What holds of the canonical texts of layers, each law as the clause of a function that does nothing.
ghost use Rattle.layer_texts.specs.Examples.{AreTold};
ghost use Rattle.layer_texts.specs.Laws.{AreListsSpelled, IsMetadataSpelled, ArePropertiesSpelled, ArePrimsSpelled, AreLayersSpelled, ArePartsWritable};

/// The lines of lists, of references and of sublayers are their words.
pub fn lists_are_spelled()
    ensures { AreListsSpelled }
{}

/// The lines of metadata are its words, and a block of it stands between brackets where there is any.
pub fn metadata_is_spelled()
    ensures { IsMetadataSpelled }
{}

/// The lines of a property are the property's words.
pub fn properties_are_spelled()
    ensures { ArePropertiesSpelled }
{}

/// The lines of prims, variant sets and variants are their words.
pub fn prims_are_spelled()
    ensures { ArePrimsSpelled }
{}

/// The canonical text of a layer that can be written is the layer's words, in their order and nothing else.
pub fn layers_are_spelled()
    ensures { AreLayersSpelled }
{}

/// Paths and offsets can be written.
pub fn parts_are_writable()
    ensures { ArePartsWritable }
{}

/// Layers with their words, and names that are no words.
pub fn examples_are_told()
    ensures { AreTold }
{}
