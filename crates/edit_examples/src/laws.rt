//! What the definitions of edits give, on closed terms: each record of examples as the clause of a function that does nothing.
ghost use Rattle.edit_examples.specs.Batches.{AreTold as BatchesAreTold};
ghost use Rattle.edit_examples.specs.Fields.{AreTold as FieldsAreTold};
ghost use Rattle.edit_examples.specs.Metadata.{AreTold as MetadataAreTold};
ghost use Rattle.edit_examples.specs.Prims.{AreTold as PrimsAreTold};
ghost use Rattle.edit_examples.specs.Values.{AreTold as ValuesAreTold};

/// Prims, variants and properties that are added and removed, with the layer that this makes or why it is refused.
pub fn prims_are_told()
    ensures { PrimsAreTold }
{}

/// Defaults and samples that are given and taken away, with the layer that this makes or why it is refused.
pub fn values_are_told()
    ensures { ValuesAreTold }
{}

/// Lists of arcs and targets, selections, orders and sublayers, with the layer that this makes or why it is refused.
pub fn fields_are_told()
    ensures { FieldsAreTold }
{}

/// Metadata of prims and layers that are given and taken away, with the layer that this makes or why it is refused.
pub fn metadata_is_told()
    ensures { MetadataAreTold }
{}

/// New layers, load rules, and batches with the world that they make or their first operation that is refused.
pub fn batches_are_told()
    ensures { BatchesAreTold }
{}
