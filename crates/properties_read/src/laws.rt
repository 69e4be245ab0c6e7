//! What holds of each property that the statements of a text make, each law as the clause of a function that does nothing.
ghost use Rattle.properties_read.specs.Aims.{StepsKeepAims, ValuesAreAimed};
ghost use Rattle.properties_read.specs.DraftLaws.{DraftsAreRead};
ghost use Rattle.properties_read.specs.Laws.{TargetsAreProper, TimesAreNear, TypedValuesAreProper, ReadPropertiesAreProper, OwnersAreRead};
ghost use Rattle.properties_read.specs.Stacks.{OpenValuesTakeTheirWords, StepsKeepProperties};

/// A target or a connection, as a text means it in the statements of a prim, is a path without selections.
pub fn targets_are_proper()
    ensures { TargetsAreProper }
{}

/// The time of a sample is within 10^12 of 0.
pub fn times_are_near()
    ensures { TimesAreNear }
{}

/// A value that is read where an attribute's type is expected is a proper value of the type, if it can be written and its
/// assets are UTF-8.
pub fn typed_values_are_proper()
    ensures { TypedValuesAreProper }
{}

/// What each part of a statement makes of the property in hand keeps its parts proper, and the property that the statements
/// make is proper.
pub fn read_properties_are_proper()
    ensures { ReadPropertiesAreProper }
{}

/// The properties that an owner has while its statements are read are proper, and each name stands once.
pub fn owners_are_read()
    ensures { OwnersAreRead }
{}

/// Each word of a text keeps the properties of the draft proper: the one in hand, those of the owners that are open, and
/// those of the prims and variants that are closed.
pub fn drafts_are_read()
    ensures { DraftsAreRead }
{}

/// The words of a property that a value follows say what is expected of the value, and a value that is read where that is
/// expected is one for what it goes to.
pub fn values_are_aimed()
    ensures { ValuesAreAimed }
{}

/// From the first word of a text on, each word that the grammar takes keeps the properties of the draft proper, and so each
/// property of the prims and variants that are closed is.
pub fn steps_keep_properties()
    ensures { StepsKeepProperties }
{}

/// From the first word of a text on, where a value is open or comes next, what is expected of it fits what it goes to.
pub fn steps_keep_aims()
    ensures { StepsKeepAims }
{}

/// While a value is open, each word is taken by a symbol of values.
pub fn open_values_take_their_words()
    ensures { OpenValuesTakeTheirWords }
{}
