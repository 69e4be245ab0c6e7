//! What holds of the tokens of a text and of each value that is read from them, each law as the clause of a function that does
//! nothing.
ghost use Rattle.values_read.specs.Laws.{TokensAreLexed, WordsAreLexed, ReadPathsAreSound, ReadValuesAreSound, OpenValuesAreSound};
ghost use Rattle.values_read.specs.Owners.{OwnersHavePaths};
ghost use Rattle.values_read.specs.Proper.{SoundValuesAreProper};
ghost use Rattle.values_read.specs.Texts.{TextsSaySoundValues};
ghost use Rattle.values_read.specs.Words.{WordsKeepValuesSound};

/// The tokens of a text that is UTF-8: what a name, an asset or a path stands for is UTF-8, a name is one, and an asset never
/// has three `@` in a row.
pub fn tokens_are_lexed()
    ensures { TokensAreLexed }
{}

/// The words of a text that is UTF-8 are of such tokens, or faults.
pub fn words_are_lexed()
    ensures { WordsAreLexed }
{}

/// A path that is put behind that of its owner goes from the root down, as paths are printed, and is UTF-8.
pub fn read_paths_are_sound()
    ensures { ReadPathsAreSound }
{}

/// A value that is read from sound tokens can be written, and is read again as itself where it is expected; its assets and
/// paths are UTF-8, its paths are from the root down, and it is at most 64 levels deep.
pub fn read_values_are_sound()
    ensures { ReadValuesAreSound }
{}

/// The same of the value of a statement, whatever tokens of a text it is read from.
pub fn open_values_are_sound()
    ensures { OpenValuesAreSound }
{}

/// A sound value is proper where a type is expected, and as the value of a key that takes it.
pub fn sound_values_are_proper()
    ensures { SoundValuesAreProper }
{}

/// Each word of a layer keeps the value that is open sound, and a value that is complete goes sound where it belongs.
pub fn words_keep_values_sound()
    ensures { WordsKeepValuesSound }
{}

/// The owners of statements have paths, whatever words are read.
pub fn owners_have_paths()
    ensures { OwnersHavePaths }
{}

/// The values that a text says are sound.
pub fn texts_say_sound_values()
    ensures { TextsSaySoundValues }
{}
