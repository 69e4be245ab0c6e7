//! What a script asks for.

use asset_names::AssetId;
use edit_batches::Batch;
use stage_questions::Question;

/// What a script asks for next.
#[derive(Debug, Drop)]
pub enum Step {
    /// The lines from `begin` to `commit`.
    Batch(Batch),
    /// The line `open`: the layer of this name is put as its file gives it.
    OpenLayer(AssetId),
    /// The line `publish`.
    Publish,
    /// The line of a question.
    Ask(Question),
}
