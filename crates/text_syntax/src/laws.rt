//! Why words are refused as `Syntax` though some text goes on with them.
ghost use Rattle.text_syntax.specs.Open.{OpenValuesFollow};
ghost use Rattle.text_syntax.specs.Elsewhere.{OtherWordsHaveRules};
ghost use Rattle.text_syntax.specs.Reasons.{RefusalsHaveReasons};

/// While a value is open, the grammar awaits what the draft of the value awaits. So a word of a value that the grammar
/// takes is refused as `Syntax` only for a path that is none.
pub fn open_values_follow_the_grammar()
    ensures { OpenValuesFollow }
{}

/// A word that is no value's, and that the grammar takes, is refused as `Syntax` only where it is a name in quotes or a
/// path that is none, or begins a list that does not go with those before it.
pub fn other_words_have_rules()
    ensures { OtherWordsHaveRules }
{}

/// Each first refusal of a text that is `Syntax` at a word with which some text of the grammar goes on is for one of
/// these reasons.
pub fn refusals_have_reasons()
    ensures { RefusalsHaveReasons }
{}
