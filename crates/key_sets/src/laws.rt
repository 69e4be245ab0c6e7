//! The laws as the clause of a function that does nothing.
ghost use Rattle.key_sets.specs.Laws.{KeysInOrder};

/// Keys in order are as many as there are different ones: the list has exactly the keys of which it is made, and it rises strictly. So two
/// lists of the same keys have one list in order. The order is the one by which keys are compared.
pub fn keys_in_order_are_a_set()
    ensures { KeysInOrder }
{}
