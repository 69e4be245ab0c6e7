//! What holds of every text.
ghost use Rattle.usda_reader.specs.Laws.{TextsHaveOneAnswer};

/// Each text has one answer: it says one layer, or it has one first refusal.
pub fn texts_have_one_answer()
    ensures { TextsHaveOneAnswer }
{}
