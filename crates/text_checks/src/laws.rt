//! What holds of the bytes of canonical texts, each law as the clause of a function that does nothing.
ghost use Rattle.text_checks.specs.Examples.{AreTold};
ghost use Rattle.text_checks.specs.Laws.{AreTextsUtf8, DoUtf8TextsPass, DoTextsPass};

/// The canonical text of a layer that can be written is UTF-8, where its assets and paths are.
pub fn texts_are_utf8()
    ensures { AreTextsUtf8 }
{}

/// A canonical text that is UTF-8 passes the checks before the first word, where it is not too long.
pub fn utf8_texts_pass()
    ensures { DoUtf8TextsPass }
{}

/// So does the canonical text of a layer that can be written, where its assets and paths are UTF-8.
pub fn texts_pass()
    ensures { DoTextsPass }
{}

/// A layer whose assets and paths are UTF-8, and one that can be written and whose text is not.
pub fn examples_are_told()
    ensures { AreTold }
{}
