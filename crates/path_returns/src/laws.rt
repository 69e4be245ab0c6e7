//! What holds of the printed texts of paths, each law as the clause of a function that does nothing.
ghost use Rattle.path_returns.specs.Returns.{AreUtf8, ArePathTexts, AreTextsRead, PathsReturn, TargetsReturn, ValuePathsReturn};

/// The printed text of a path is UTF-8.
pub fn path_texts_are_utf8()
    ensures { AreUtf8 }
{}

/// The printed text of a path may be the text of a value that is a path.
pub fn path_texts_are_paths()
    ensures { ArePathTexts }
{}

/// The printed text of a path is read as that path.
pub fn path_texts_are_read()
    ensures { AreTextsRead }
{}

/// A path between its brackets is read as that path in the statements of each prim, and in the head of a layer.
pub fn paths_return()
    ensures { PathsReturn }
{}

/// A path without selections between its brackets is read as that target in the statements of each prim.
pub fn targets_return()
    ensures { TargetsReturn }
{}

/// The token of a path, as values hold it, is read as itself in the statements of each prim.
pub fn value_paths_return()
    ensures { ValuePathsReturn }
{}
