//! What holds of every line.
ghost use Rattle.script_words.specs.Laws.{LineValuesAreRead};

/// A value of a line is what the reader of values reads of its tokens, with their paths from the root down, where nothing is left behind it.
pub fn line_values_are_read()
    ensures { LineValuesAreRead }
{}
