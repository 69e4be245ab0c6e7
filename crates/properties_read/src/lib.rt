//! Each property that the statements of a text make is proper.
//!
//! `specs/Targets.antt`, `specs/Values.antt` and `specs/Sound.antt` say what holds of a property while its statements are
//! read: its name is one, its values are of its type, its lists are those that were given, and its metadata is proper.
//! `specs/Laws.antt` has the laws of the parts of a statement and of the owner of properties: each keeps this, and where no
//! list is open the property is proper, as `value_returns` says it.
//!
//! `specs/Drafts.antt` says it of the draft of a layer, and `specs/DraftLaws.antt` of what each word adds to a draft.
//! `specs/Stacks.antt` ties it to the symbols that are left to be read, so that it holds word by word from the first one on,
//! and `specs/Aims.antt` says what is expected of the values that go to properties. Each law is the clause of a function
//! that does nothing.
#![tactic(auto)]

mod laws;

pub use laws::{
    drafts_are_read, open_values_take_their_words, owners_are_read, read_properties_are_proper,
    steps_keep_aims, steps_keep_properties, targets_are_proper, times_are_near,
    typed_values_are_proper, values_are_aimed,
};
