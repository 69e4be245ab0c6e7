//! What holds of the words of layers, each law as the clause of a function that does nothing.
ghost use Rattle.layer_returns.specs.Examples.{ExamplesComeBack};
ghost use Rattle.layer_returns.specs.Heads.{HeadsComeBack};
ghost use Rattle.layer_returns.specs.Layers.{AreLayersTaken, AreTextsTaken};
ghost use Rattle.layer_returns.specs.Owners.{OwnersSay};
ghost use Rattle.layer_returns.specs.Reached.{ReachedSpecsAreRead};
ghost use Rattle.layer_returns.specs.Texts.{TextsSayTheirLayers};
ghost use Rattle.layer_returns.specs.Theorem.{LayersComeBack};
ghost use Rattle.layer_returns.specs.Trees.{AreTreesRead};
ghost use Rattle.layer_returns.specs.Whole.{SpecsAreTheLayers};

/// The words of the body of a prim or a variant, and those of root prims, make all that stands in them.
pub fn trees_are_taken()
    ensures { AreTreesRead }
{}

/// The words of a layer are taken from the first to the last, and their draft stands where the layer says.
pub fn layers_are_taken()
    ensures { AreLayersTaken }
{}

/// The canonical text of a layer that can be written is read to its end, as the layer that stands there.
pub fn texts_are_taken()
    ensures { AreTextsTaken }
{}

/// A prim or a variant says its spec behind its statements, where the children and variants that it names have specs.
pub fn owners_say_their_specs()
    ensures { OwnersSay }
{}

/// The head of a layer comes back from the layer's text, where the default prim is not among its keys as well.
pub fn heads_come_back()
    ensures { HeadsComeBack }
{}

/// Each spec that is read from a layer's text is the layer's, where all prims and variants that the layer names have specs.
pub fn specs_are_the_layers()
    ensures { SpecsAreTheLayers }
{}

/// The spec at each path that is reached from the root prims of a layer is read from the layer's text.
pub fn reached_specs_are_read()
    ensures { ReachedSpecsAreRead }
{}

/// Reading the canonical text of a layer gives that layer back.
pub fn layers_come_back()
    ensures { LayersComeBack }
{}

/// A layer whose parts come back.
pub fn examples_come_back()
    ensures { ExamplesComeBack }
{}

/// The canonical text of a layer is a text that says the layer, where its bytes pass the checks before the first word.
pub fn texts_say_their_layers()
    ensures { TextsSayTheirLayers }
{}
