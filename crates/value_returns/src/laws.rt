//! What comes back of values, metadata and properties, each law as the clause of a function that does nothing.
ghost use Rattle.value_returns.specs.Examples.{ExamplesAreProper};
ghost use Rattle.value_returns.specs.Laws.{ReadValuesHaveMembers, TypedValuesAreShallow, TypedValuesHaveFullPaths, FullPathsAreFixed, ProperValuesAreKept, ProperMetaIsKept, ProperPropertiesAreKept, PrintsAreFull, ProperFieldsAreKept, ProperHeadKeysAreKept};

/// The tuples of a value that is read have members.
pub fn read_values_have_members()
    ensures { ReadValuesHaveMembers }
{}

/// A value that is read where a type is expected has at most three levels of tuples and arrays.
pub fn typed_values_are_shallow()
    ensures { TypedValuesAreShallow }
{}

/// A value that is read where a type is expected has no paths but those from the root down.
pub fn typed_values_have_full_paths()
    ensures { TypedValuesHaveFullPaths }
{}

/// The words of a value whose paths are from the root down mean the same whatever prim the value stands in.
pub fn full_paths_are_fixed()
    ensures { FullPathsAreFixed }
{}

/// A value of a type that can be written comes back, whatever prim it stands in.
pub fn proper_values_are_kept()
    ensures { ProperValuesAreKept }
{}

/// Proper metadata come back, whatever prim they stand in.
pub fn proper_metadata_is_kept()
    ensures { ProperMetaIsKept }
{}

/// A proper property comes back, whatever prim it stands in.
pub fn proper_properties_are_kept()
    ensures { ProperPropertiesAreKept }
{}

/// What a prim or a variant says between its brackets comes back where it is proper, whatever prim it stands in.
pub fn proper_fields_are_kept()
    ensures { ProperFieldsAreKept }
{}

/// The proper keys of a layer come back, its default prim among them.
pub fn proper_head_keys_are_kept()
    ensures { ProperHeadKeysAreKept }
{}

/// The printed text of a path is a path from the root down.
pub fn prints_are_full()
    ensures { PrintsAreFull }
{}

/// An attribute, a value and a key that are proper, and paths that are not from the root down.
pub fn examples_are_proper()
    ensures { ExamplesAreProper }
{}
