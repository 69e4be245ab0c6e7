//! The laws as the clause of a function that does nothing.
ghost use Rattle.laws_reading.specs.Laws.{ListedReads};

/// The keys that are listed of a path are exactly those that it reads, each once in the order of keys; and worlds that have the same at each of
/// them have the same view of the path, which reads the same keys in both. So it is at `/`, at the path of a prim, and at any other path.
pub fn what_is_listed_settles_a_view()
    ensures { ListedReads }
{}
