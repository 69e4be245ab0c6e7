//! Examples of canonical texts.
ghost use Rattle.usda_writer.specs.Examples.{AreWritten};

/// Layers and their texts: forms of lists, sublayers, relationships and variant sets, and two of connections.
pub fn examples_are_told()
    ensures { AreWritten }
{}
