//! What the definitions of arcs' paths, of flattening, of answers and of replies give, on closed terms: each record of examples as
//! the clause of a function that does nothing.
ghost use Rattle.stage_examples.specs.Answers.{AreTold as AnswersAreTold};
ghost use Rattle.stage_examples.specs.Flattening.{AreTold as LayersAreTold};
ghost use Rattle.stage_examples.specs.PathMaps.{AreTold as PathsAreTold};
ghost use Rattle.stage_examples.specs.Replies.{AreTold as RepliesAreTold};

/// Paths through references, payloads, inherits, specializes and variants: what moves, what stays and what has no translation; and
/// classes that are looked up again on this side of a reference.
pub fn paths_are_translated()
    ensures { PathsAreTold }
{}

/// Properties, prims and whole stages with what they are in a flattened layer: explicit lists, blocked defaults, the default prim.
pub fn stages_are_flattened()
    ensures { LayersAreTold }
{}

/// A small stage with the answers to questions on it: children, defaults, values at a time, samples, targets, and why there is none.
pub fn questions_are_answered()
    ensures { AnswersAreTold }
{}

/// Replies to batches and publishes, and the lines that answer questions: values, lists, sites, faults and flattened layers.
pub fn replies_are_told()
    ensures { RepliesAreTold }
{}
