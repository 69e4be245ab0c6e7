//! What holds of every map of files.
ghost use Rattle.layer_load.specs.Laws.{FilesHaveOneReading};

use usda_reader::texts_have_one_answer;

/// At each name of a map of files one thing stands: nothing, a layer, or a refusal.
pub fn files_have_one_reading()
    ensures { FilesHaveOneReading }
{
    texts_have_one_answer();
}
