use asset_names::AssetId;
use edit_batches::Op;
use stage_questions::Question;

/// A line of a script, read for itself.
#[derive(Debug, Drop)]
pub enum Line {
    /// Blanks, or any line that a comment begins.
    Blank,
    /// `begin`: operations follow.
    Begin,
    /// An operation.
    Change(Op),
    /// `commit`: the operations since `begin` are a batch.
    Commit,
    /// `open`: the layer is put as its file gives it.
    Open(AssetId),
    /// `publish`.
    Publish,
    /// A question.
    Ask(Question),
}
