//! The value that is being read, if one is.
ghost use Rattle.std.specs.Prelude.{◌≡◌};
ghost use Rattle.usda_lists.specs.Acts.{Does};
ghost use Rattle.usda_statements.specs.OpenValues.{no_draft, no_value, is_open, opened, given_token, given_path, given_in, given, value_in};

use plain_data::{Items, Text};
use sdf_paths::Path;
use sdf_values::{RefusalKind, Value};
use std::alloc::Global;
use std::mem;
use usda_fields::give_selection_token;
use usda_lexer::{TokenKind, path_text};
use usda_lists::absolute_from;
use usda_values::{Bracket, Level, PartFault, Place, Shape, ValueDraft};

/// The value that is being read, token by token; a draft that is complete where none is. After a fault it is of no use.
#[derive(Debug, Drop)]
pub struct OpenValue {
    /// What is read of it so far.
    pub draft: ValueDraft,
    /// Whether it is a dictionary of selections, whose entries are strings.
    pub only_strings: bool,
}

/// The draft where no value is open.
fn no_draft(alloc: Global) -> ValueDraft
    ensures { result ≡ no_draft }
{
    ValueDraft {
        place: Place::Complete,
        level: Level::new(alloc, Bracket::Statement, Shape::Untyped, Some(1)),
        outer: Items::new(alloc),
    }
}

/// What a token adds to a draft; the entries of a dictionary of selections are strings.
fn give_token(
    draft: &mut ValueDraft,
    only_strings: bool,
    kind: TokenKind,
    text: &str,
) -> Result<(), PartFault>
    ensures { Does result draft.new (given_token only_strings kind text.now draft.old) }
{
    if only_strings {
        give_selection_token(draft, kind, text)
    } else {
        draft.give(kind, text)
    }
}

fn give_path(
    draft: &mut ValueDraft,
    only_strings: bool,
    token: Option<Text>,
) -> Result<(), PartFault>
    ensures { Does result draft.new (given_path only_strings token draft.old) }
{
    match token {
        Some(token) => give_token(draft, only_strings, TokenKind::Path, token.as_str()),
        None => Err(PartFault::Refused(RefusalKind::Syntax)),
    }
}

/// What a token adds to a draft; a path is put behind that of the owner first.
fn give_in(
    draft: &mut ValueDraft,
    alloc: Global,
    base: &Path,
    only_strings: bool,
    kind: TokenKind,
    text: &str,
) -> Result<(), PartFault>
    ensures { Does result draft.new (given_in base.now only_strings kind text.now draft.old) }
{
    match kind {
        TokenKind::Path => {
            let token = absolute_from(alloc, base, path_text(text))?;
            give_path(draft, only_strings, token)
        }
        _ => give_token(draft, only_strings, kind, text),
    }
}

impl OpenValue {
    /// No value; takes no memory.
    pub fn none(alloc: Global) -> OpenValue
        ensures { result ≡ no_value }
    {
        OpenValue {
            draft: no_draft(alloc),
            only_strings: false,
        }
    }

    /// A value of which this is expected and no token is read; takes no memory.
    pub fn new(alloc: Global, shape: Shape, only_strings: bool) -> OpenValue
        ensures { result ≡ opened shape only_strings }
    {
        OpenValue {
            draft: ValueDraft::new(alloc, shape),
            only_strings,
        }
    }

    /// Whether a value is open.
    pub fn is_open(&self) -> bool
        ensures { result ≡ is_open self.now }
    {
        !self.draft.is_complete()
    }

    /// Reads one token more of the value, in a statement whose owner has this plain path.
    pub fn give(
        &mut self,
        alloc: Global,
        base: &Path,
        kind: TokenKind,
        text: &str,
    ) -> Result<(), PartFault>
        ensures { Does result self.new (given base.now kind text.now self.old) }
    {
        if let Err(fault) = give_in(&mut self.draft, alloc, base, self.only_strings, kind, text) {
            return Err(fault);
        }
        Ok(())
    }

    /// Takes the value that is complete; none is open then. Takes no memory.
    pub fn take(&mut self, alloc: Global) -> Value
        ensures value { result ≡ value_in self.old }
        ensures left { self.new ≡ no_value }
    {
        let whole = mem::replace(self, OpenValue::none(alloc));
        whole.draft.into_value()
    }
}
