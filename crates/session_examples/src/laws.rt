//! What the definition of a session gives, on closed terms: the record of examples as the clause of a function that does nothing.
ghost use Rattle.session_examples.specs.Sessions.{AreTold};

/// A small world that is opened, batches on it that are accepted and refused, publishes, and questions before and after them.
pub fn sessions_are_told()
    ensures { AreTold }
{}
