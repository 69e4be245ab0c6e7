//! What holds of a value that is taken as one of a type, each law as the clause of a function that does nothing.
ghost use Rattle.value_shapes.specs.Apart.{AreApart};
ghost use Rattle.value_shapes.specs.Laws.{AreOfTheType, AreKept, AreOfTheMeaning, AreTakenOnce, AreTheOnly, AreReadOfTheType};

/// What is taken of a value as one of a type is one of the type.
pub fn taken_values_are_of_the_type()
    ensures { AreOfTheType }
{}

/// A value that is one of the type is taken as it is.
pub fn values_of_the_type_are_kept()
    ensures { AreKept }
{}

/// What is taken of a value means the same: numbers, times and truth values alone may be represented otherwise.
pub fn taken_values_are_of_the_meaning()
    ensures { AreOfTheMeaning }
{}

/// What was taken as one of a type is taken again as it is.
pub fn taken_values_stay()
    ensures { AreTakenOnce }
{}

/// No other value of the type means the same, where numbers are such as a program holds them; where a value is refused, none
/// does.
pub fn taken_values_are_the_only()
    ensures { AreTheOnly }
{}

/// What is read where a type is expected is one of the type.
pub fn typed_values_are_of_the_type()
    ensures { AreReadOfTheType }
{}

/// What means the same as a value of each kind: beside the value itself only the decimal, the time and the truth value of
/// a whole number, the time of a decimal, the truth value of its word, and tuples and arrays of as many members of the
/// same meanings.
pub fn meanings_are_apart()
    ensures { AreApart }
{}
