//! Each value that a text says is proper as a value.
//!
//! `specs/Tokens.antt` says what the tokens of a text are, `specs/Sound.antt` which drafts of values are sound, and
//! `specs/Owners.antt` which paths the owners of statements have. `specs/Laws.antt` has the laws of drafts of values,
//! `specs/Words.antt` those of each word of a layer, `specs/Texts.antt` those of each text, and `specs/Proper.antt` what
//! follows where a value stands. Each law is the clause of a function that does nothing.
#![tactic(auto)]

mod laws;

pub use laws::{
    open_values_are_sound, owners_have_paths, read_paths_are_sound, read_values_are_sound,
    sound_values_are_proper, texts_say_sound_values, tokens_are_lexed, words_are_lexed,
    words_keep_values_sound,
};
