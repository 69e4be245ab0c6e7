//! What an owner says is proper, each law as the clause of a function that does nothing.
ghost use Rattle.std.specs.Prelude.{Bool};
ghost use Rattle.usda_grammar.specs.declared.kinds.Keyword.{Keyword};
ghost use Rattle.fields_read.specs.Laws.{OwnersBeginSound, ReadListsAreProper, ReadMetadataIsProper, ReadKeysAreProper, SelectionsAndOrdersAreRead, SublayersAreRead, SaidIsProper};

/// An owner of which nothing is read yet says nothing but what is proper.
pub fn owners_begin_sound()
    ensures { OwnersBeginSound }
{}

/// A list of a field that is read has proper items, each once, and is explicit or edits, not both.
pub fn read_lists_are_proper()
    ensures { (is_name : Keyword → Bool) → ReadListsAreProper is_name }
{}

/// A key that is read with its value is proper, and so is the comment.
pub fn read_metadata_is_proper()
    ensures { (is_name : Keyword → Bool) → ReadMetadataIsProper is_name }
{}

/// So are the keys of an owner and its comment.
pub fn read_keys_are_proper()
    ensures { (is_name : Keyword → Bool) → ReadKeysAreProper is_name }
{}

/// Selected variants that are read stand in order, each set once, and they and the names of an order are UTF-8.
pub fn selections_and_orders_are_read()
    ensures { (is_name : Keyword → Bool) → SelectionsAndOrdersAreRead is_name }
{}

/// Sublayers that are read have assets that can be written, and offsets within their limits.
pub fn sublayers_are_read()
    ensures { SublayersAreRead }
{}

/// The fields of an owner of which no list is open are proper.
pub fn said_is_proper()
    ensures { SaidIsProper }
{}
