//! What holds of the words of a layer's parts, each law as the clause of a function that does nothing.
ghost use Rattle.layer_reads.specs.Bodies.{AreOrdersRead, ArePrimsRead, AreVariantsRead};
ghost use Rattle.layer_reads.specs.Laws.{AreFieldListsTaken, AreFieldsOpened, AreLinesTaken, AreValues, ValuesAreTaken};
ghost use Rattle.layer_reads.specs.MetadataLaws.{AreFieldsRead, AreKeysRead, IsPrimMetadataRead};
ghost use Rattle.layer_reads.specs.Properties.{IsPropertyRead};

/// The words of a value, whose tuples have members, are a value to the grammar.
pub fn values_are_stepped()
    ensures { AreValues }
{}

/// The words of a value make of a draft what the value makes of it.
pub fn values_are_taken()
    ensures { ValuesAreTaken }
{}

/// The words of a list of strings or of paths make it the list of its field.
pub fn field_lists_are_taken()
    ensures { AreFieldListsTaken }
{}

/// Lines of metadata of a layer, a prim or a variant make of the owner what their keys and values do.
pub fn lines_are_taken()
    ensures { AreLinesTaken }
{}

/// The word of a field and `=` open the field's explicit list.
pub fn fields_are_opened()
    ensures { AreFieldsOpened }
{}

/// The words of the lists of a field make the owner say the lists, explicit ones and those of edits.
pub fn lists_are_read()
    ensures { AreFieldsRead }
{}

/// The words of metadata make an owner say its comment and its keys, those of selected variants make it select them, and those of
/// sublayers make them the layer's.
pub fn keys_are_read()
    ensures { AreKeysRead }
{}

/// The words of the metadata of a prim or a variant make it say all of its metadata.
pub fn metadata_is_read()
    ensures { IsPrimMetadataRead }
{}

/// The words of the orders of children, of properties and of root prims make an owner say them.
pub fn orders_are_read()
    ensures { AreOrdersRead }
{}

/// The words of a prim make the prim below its owner, where the words of its body make the body.
pub fn prims_are_read()
    ensures { ArePrimsRead }
{}

/// The words of a variant make it one of its set, and those of a set make it one of its owner.
pub fn variants_are_read()
    ensures { AreVariantsRead }
{}

/// The words of a property make it the last property of its owner.
pub fn properties_are_read()
    ensures { IsPropertyRead }
{}
