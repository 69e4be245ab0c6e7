//! What holds of proper layers, each law as the clause of a function that does nothing.
ghost use Rattle.proper_layers.specs.Examples.{ProperExamples};
ghost use Rattle.proper_layers.specs.Laws.{ProperLayersReturn, ProperTextsDiffer};

/// The canonical text of a proper layer says the layer: reading it gives that layer.
pub fn proper_layers_return()
    ensures { ProperLayersReturn }
{}

/// Two proper layers with one canonical text are the same layer.
pub fn proper_texts_differ()
    ensures { ProperTextsDiffer }
{}

/// Layers that are proper, and some that are not.
pub fn proper_examples_hold()
    ensures { ProperExamples }
{}
