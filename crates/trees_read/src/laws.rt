//! What holds of the tree of prims and variants of each layer that a text says, and of its lists.
ghost use Rattle.trees_read.specs.Laws.{TreesAreRead};
ghost use Rattle.trees_read.specs.Lists.{ListsAreClosed};

/// Behind the words of a text nothing is open any more, and the tree of its layer is proper: its specs are in the order of
/// paths, each at the path of a prim or a variant that has an owner, each owner names all that stands directly below it, and
/// each of its properties stands once.
pub fn trees_are_read()
    ensures { TreesAreRead }
{}

/// Behind the words of a text no list of its layer is in the making any more: each item stands once in its list.
pub fn lists_are_closed()
    ensures { ListsAreClosed }
{}
