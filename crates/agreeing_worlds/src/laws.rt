//! The laws as the clauses of functions that do nothing.
ghost use Rattle.agreeing_worlds.specs.Laws.{ReadsCover};
ghost use Rattle.agreeing_worlds.specs.Since.{DatesHold};

/// Worlds that agree on the heads that a stack asks have the same stack; those that agree on what is read at a node below `/` say the same
/// there; and those that agree on what a path reads have the same view of it, which reads the same keys in both, and where it is a prim's the
/// same index. So it is whatever the limits and the worlds are, and nothing else of a world bears on these.
pub fn what_is_read_covers_the_view()
    ensures { ReadsCover }
{}

/// A batch that changes nothing of what a path read leaves its view as it was. So the date of a prim says what it seems to: in all versions
/// of the stage since that one it has the same view.
pub fn a_view_is_as_it_is_since_its_date()
    ensures { DatesHold }
{}
