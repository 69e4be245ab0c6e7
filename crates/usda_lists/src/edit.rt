//! The lists of one field: an explicit one, or one for each edit word.
ghost use Rattle.std.specs.Prelude.{◌≡◌, OnErr};
ghost use Rattle.usda_lists.specs.Acts.{AsksNoMemory, Does};
ghost use Rattle.usda_lists.specs.Edits.{edit_of, none_given, has_edits, clashes, is_given, with_given, give};

use sdf_values::RefusalKind;
use usda_values::PartFault;

/// What a list does to the lists of weaker opinions.
#[derive(Clone, Copy, Debug, PartialEq, Eq)]
pub enum ListEdit {
    /// It replaces them: no edit word stands before the field.
    Explicit,
    /// Its items are taken out.
    Delete,
    /// Its items that are not there are added at the end.
    Add,
    /// Its items are put to the front.
    Prepend,
    /// Its items are put to the end.
    Append,
    /// Its items and what follows them are put into its order.
    Reorder,
}

/// Which lists of one field were given.
#[derive(Clone, Copy, Debug, PartialEq, Eq)]
pub struct GivenLists {
    /// A list with no edit word before it.
    pub explicit: bool,
    /// One behind `delete`.
    pub deleted: bool,
    /// One behind `add`.
    pub added: bool,
    /// One behind `prepend`.
    pub prepended: bool,
    /// One behind `append`.
    pub appended: bool,
    /// One behind `reorder`.
    pub ordered: bool,
}

impl ListEdit {
    /// The edit of an edit word; `Explicit` for any other word.
    pub fn of_word(word: &str) -> ListEdit
        ensures { result ≡ edit_of word.now }
    {
        match word {
            "delete" => ListEdit::Delete,
            "add" => ListEdit::Add,
            "prepend" => ListEdit::Prepend,
            "append" => ListEdit::Append,
            "reorder" => ListEdit::Reorder,
            _ => ListEdit::Explicit,
        }
    }
}

impl GivenLists {
    /// No list was given.
    pub fn none() -> GivenLists
        ensures { result ≡ none_given }
    {
        GivenLists {
            explicit: false,
            deleted: false,
            added: false,
            prepended: false,
            appended: false,
            ordered: false,
        }
    }

    /// Notes that a list is given, which may be empty. `Syntax` where an explicit list and edits meet, `DuplicateSpec` where
    /// this list was given before; then nothing is noted. Takes no memory.
    pub fn give(&mut self, edit: ListEdit) -> Result<(), PartFault>
        ensures answer { Does result self.new (give edit self.old) }
        ensures kept { OnErr result (self.new ≡ self.old) }
        ensures sure { AsksNoMemory result }
    {
        if self.clashes(edit) {
            return Err(PartFault::Refused(RefusalKind::Syntax));
        }
        if self.is_given(edit) {
            return Err(PartFault::Refused(RefusalKind::DuplicateSpec));
        }
        self.note(edit);
        Ok(())
    }

    fn has_edits(&self) -> bool
        ensures { result ≡ has_edits self.now }
    {
        self.deleted || self.added || self.prepended || self.appended || self.ordered
    }

    fn clashes(&self, edit: ListEdit) -> bool
        ensures { result ≡ clashes edit self.now }
    {
        match edit {
            ListEdit::Explicit => self.has_edits(),
            _ => self.explicit,
        }
    }

    fn is_given(&self, edit: ListEdit) -> bool
        ensures { result ≡ is_given edit self.now }
    {
        match edit {
            ListEdit::Explicit => self.explicit,
            ListEdit::Delete => self.deleted,
            ListEdit::Add => self.added,
            ListEdit::Prepend => self.prepended,
            ListEdit::Append => self.appended,
            ListEdit::Reorder => self.ordered,
        }
    }

    fn note(&mut self, edit: ListEdit)
        ensures { self.new ≡ with_given edit self.old }
    {
        match edit {
            ListEdit::Explicit => self.explicit = true,
            ListEdit::Delete => self.deleted = true,
            ListEdit::Add => self.added = true,
            ListEdit::Prepend => self.prepended = true,
            ListEdit::Append => self.appended = true,
            ListEdit::Reorder => self.ordered = true,
        }
    }
}
