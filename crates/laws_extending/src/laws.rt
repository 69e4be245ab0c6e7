//! The laws as the clauses of functions that do nothing.
ghost use Rattle.laws_extending.specs.KeyLaws.{KeysExtend};
ghost use Rattle.laws_extending.specs.Laws.{TreesExtend};
ghost use Rattle.laws_extending.specs.ThinLaws.{IndexExtends, ThinTreesExtend};

/// The tree of a child on the stage, and that of each of its rounds of choices, is its parent's tree extended: one level down, with what is
/// said at the new level and what grows below the arcs of that level. So it is whatever the limits and the world are, as long as a tree may have
/// a node, whether or not either tree was cut.
pub fn a_tree_extends_its_parents()
    ensures { TreesExtend }
{}

/// So it is with what an index keeps of a prim, which is its nodes and what is said at their own paths: where the parent's tree was not cut, that
/// much of it gives as much of the child's, and so its choices and its sites. What was said at higher levels need not be kept or looked at again.
pub fn an_index_extends_its_parents()
    ensures { ThinTreesExtend }
{}

/// And so it gives the child's whole index, the faults of its arcs too, where no arc of a node of the parent leads to a path that is too long,
/// there or one level down.
pub fn an_index_that_is_extended_misses_no_fault()
    ensures { IndexExtends }
{}

/// The keys that are read at a node one level down are those that were read at the node and those of the new level, and no others.
pub fn what_is_read_extends_too()
    ensures { KeysExtend }
{}
