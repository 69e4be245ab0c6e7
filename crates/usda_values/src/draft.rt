//! A value that is being read, token by token.
ghost use Rattle.std.specs.Prelude.{◌≡◌, Ok, OnOk};
ghost use Rattle.plain_data.specs.Ends.{last};
ghost use Rattle.usda_values.specs.Scalars.{token_value};
ghost use Rattle.usda_values.specs.Shapes.{tuple_members, array_members, take_value};
ghost use Rattle.usda_values.specs.Drafts.{draft_of, give_act, put_act, deeper, open_members, open_dict, new_level, close_act, go_out, type_act, key_act, act_value, act_value_or_end, act_behind_member, act_entry, act_key, act_behind_type, act_type_end, act_equals, act_behind_entry, act_dictionary, value_act, is_complete, value_of};
ghost use Rattle.usda_values.specs.Reads.{Does};
ghost use Rattle.usda_lexer.specs.Meanings.{string_text};

use crate::fault::PartFault;
use crate::level::{
    Bracket, Level, Place, array_type, behind_value, closes, is_full, is_lacking, is_statement,
};
use crate::scalar::{take_value, token_value};
use crate::shape::{Shape, array_members, entry_shape, takes_dictionary, tuple_members};
use plain_data::{Items, Text};
use sdf_values::{DictType, ELEMENTS, RefusalKind, TypeName, Value, find_element};
use std::alloc::{AllocError, Global};
use std::mem;
use usda_lexer::{Mark, TokenKind, string_text};

/// The most values that are open inside each other.
const MAX_OPEN: usize = 64;

/// A value of which some tokens are read: the levels that are open, and what may stand next.
#[derive(Debug, Drop)]
pub struct ValueDraft {
    /// What may stand next.
    pub place: Place,
    /// The innermost level.
    pub level: Level,
    /// The levels round it, the outermost first.
    pub outer: Items<Level>,
}

impl ValueDraft {
    /// The draft of a value of which this is expected; takes no memory.
    pub fn new(alloc: Global, shape: Shape) -> ValueDraft
        ensures { result ≡ draft_of Place.Value shape }
    {
        ValueDraft {
            place: Place::Value,
            level: Level::new(alloc, Bracket::Statement, shape, Some(1)),
            outer: Items::new(alloc),
        }
    }

    /// The draft of a dictionary, whose first token has to be its `{`; takes no memory.
    pub fn dictionary(alloc: Global) -> ValueDraft
        ensures { result ≡ draft_of Place.Dictionary Shape.Dictionary }
    {
        ValueDraft {
            place: Place::Dictionary,
            level: Level::new(alloc, Bracket::Statement, Shape::Dictionary, Some(1)),
            outer: Items::new(alloc),
        }
    }

    /// Whether the value is complete.
    pub fn is_complete(&self) -> bool
        ensures { result ≡ is_complete self.now }
    {
        matches!(self.place, Place::Complete)
    }

    /// The value of a draft that is complete.
    pub fn into_value(self) -> Value
        ensures { result ≡ value_of self }
    {
        let ValueDraft { level, outer, .. } = self;
        let Level {
            mut values,
            entries,
            key,
            ..
        } = level;
        let last = values.pop();
        drop((outer, values, entries, key));
        match last {
            Some(value) => value,
            None => Value::Block,
        }
    }

    /// Reads one token more, or tells why it is refused. After a fault the draft is of no use.
    #[tactic(auto, unfolding(crate::specs::Drafts::value_act))]
    pub fn give(&mut self, kind: TokenKind, text: &str) -> Result<(), PartFault>
        ensures { Does result self.new (value_act kind text.now self.old) }
    {
        match self.place {
            Place::Value => self.act_value(kind, text),
            Place::ValueOrEnd => self.act_value_or_end(kind, text),
            Place::BehindMember => self.act_behind_member(kind),
            Place::EntryType => self.act_entry(kind, text),
            Place::BehindType => self.act_behind_type(kind, text),
            Place::TypeEnd => self.act_type_end(kind),
            Place::Key => self.act_key(kind, text),
            Place::Equals => self.act_equals(kind),
            Place::BehindEntry => self.act_behind_entry(kind, text),
            Place::Dictionary => self.act_dictionary(kind),
            Place::Complete => Err(PartFault::Refused(RefusalKind::Syntax)),
        }
    }

    /// A value that stands in the innermost level.
    fn give_value(&mut self, value: Value) -> Result<(), AllocError>
        ensures { OnOk result (self.new ≡ give_act value self.old) }
    {
        self.place = behind_value(self.level.bracket);
        self.level.give(value)
    }

    /// A value of one token.
    fn put(&mut self, kind: TokenKind, text: &str) -> Result<(), PartFault>
        ensures { Does result self.new (put_act (token_value kind text.now) self.old) }
    {
        match token_value(self.outer.allocator(), kind, text) {
            Ok(value) => self.put_value(value),
            Err(fault) => Err(fault),
        }
    }

    /// The value of a token.
    fn put_value(&mut self, value: Value) -> Result<(), PartFault>
        ensures { Does result self.new (put_act (Ok value) self.old) }
    {
        if is_full(self.level.room) {
            drop(value);
            return Err(PartFault::Refused(RefusalKind::ValueShape));
        }
        match take_value(self.level.item, is_statement(self.level.bracket), value) {
            Ok(value) => {
                self.give_value(value)?;
                Ok(())
            }
            Err(fault) => Err(fault),
        }
    }

    /// A level more.
    fn deeper(
        &mut self,
        place: Place,
        bracket: Bracket,
        item: Shape,
        room: Option<usize>,
    ) -> Result<(), PartFault>
        ensures { Does result self.new (deeper place (new_level bracket item room) self.old) }
    {
        if self.outer.len() >= MAX_OPEN {
            return Err(PartFault::Refused(RefusalKind::TooDeep));
        }
        let inner = Level::new(self.outer.allocator(), bracket, item, room);
        let outer = mem::replace(&mut self.level, inner);
        self.outer.push(outer)?;
        self.place = place;
        Ok(())
    }

    fn open_members(
        &mut self,
        bracket: Bracket,
        place: Place,
        members: Option<(Shape, Option<usize>)>,
    ) -> Result<(), PartFault>
        ensures { Does result self.new (open_members bracket place members self.old) }
    {
        let Some((item, room)) = members else {
            return Err(PartFault::Refused(RefusalKind::ValueShape));
        };
        if is_full(self.level.room) {
            return Err(PartFault::Refused(RefusalKind::ValueShape));
        }
        self.deeper(place, bracket, item, room)
    }

    fn open_dict(&mut self) -> Result<(), PartFault>
        ensures { Does result self.new (open_dict self.old) }
    {
        if is_full(self.level.room) || !takes_dictionary(self.level.item) {
            return Err(PartFault::Refused(RefusalKind::ValueShape));
        }
        self.deeper(Place::EntryType, Bracket::Dict, Shape::Untyped, None)
    }

    /// The innermost level ends, and is a value of the one round it.
    fn close(&mut self) -> Result<(), PartFault>
        ensures { Does result self.new (close_act self.old) }
    {
        if is_lacking(self.level.room) {
            return Err(PartFault::Refused(RefusalKind::ValueShape));
        }
        self.go_out()?;
        Ok(())
    }

    fn go_out(&mut self) -> Result<(), AllocError>
        ensures { OnOk result (self.new ≡ go_out (last self.old.outer) self.old) }
    {
        match self.outer.pop() {
            Some(outer) => {
                let inner = mem::replace(&mut self.level, outer);
                let value = inner.wrap(self.outer.allocator())?;
                self.give_value(value)
            }
            None => Ok(()),
        }
    }

    fn act_value(&mut self, kind: TokenKind, text: &str) -> Result<(), PartFault>
        ensures { Does result self.new (act_value kind text.now self.old) }
    {
        match kind {
            TokenKind::Mark(Mark::OpenParen) => {
                self.open_members(Bracket::Tuple, Place::Value, tuple_members(self.level.item))
            }
            TokenKind::Mark(Mark::OpenBracket) => {
                self.open_members(
                    Bracket::Array,
                    Place::ValueOrEnd,
                    array_members(self.level.item),
                )
            }
            TokenKind::Mark(Mark::OpenBrace) => self.open_dict(),
            _ => self.put(kind, text),
        }
    }

    fn act_value_or_end(&mut self, kind: TokenKind, text: &str) -> Result<(), PartFault>
        ensures { Does result self.new (act_value_or_end kind text.now self.old) }
    {
        if closes(self.level.bracket, kind) {
            self.close()
        } else {
            self.act_value(kind, text)
        }
    }

    fn act_behind_member(&mut self, kind: TokenKind) -> Result<(), PartFault>
        ensures { Does result self.new (act_behind_member kind self.old) }
    {
        if let TokenKind::Mark(Mark::Comma) = kind {
            self.place = Place::ValueOrEnd;
            return Ok(());
        }
        if closes(self.level.bracket, kind) {
            self.close()
        } else {
            Err(PartFault::Refused(RefusalKind::Syntax))
        }
    }

    fn act_entry(&mut self, kind: TokenKind, text: &str) -> Result<(), PartFault>
        ensures { Does result self.new (act_entry kind text.now self.old) }
    {
        match kind {
            TokenKind::Mark(Mark::CloseBrace) => self.close(),
            TokenKind::Name => self.act_type(text),
            _ => Err(PartFault::Refused(RefusalKind::Syntax)),
        }
    }

    /// The type of an entry.
    fn act_type(&mut self, name: &str) -> Result<(), PartFault>
        ensures { Does result self.new (type_act name.now self.old) }
    {
        if name == "dictionary" {
            self.place = Place::Key;
            self.level.ty = DictType::Dictionary;
            return Ok(());
        }
        match find_element(&ELEMENTS, name) {
            Some(element) => {
                self.place = Place::BehindType;
                self.level.ty = DictType::Plain(TypeName::one(element));
                Ok(())
            }
            None => Err(PartFault::Refused(RefusalKind::UnknownType)),
        }
    }

    fn act_behind_type(&mut self, kind: TokenKind, text: &str) -> Result<(), PartFault>
        ensures { Does result self.new (act_behind_type kind text.now self.old) }
    {
        if let TokenKind::Mark(Mark::OpenBracket) = kind {
            self.place = Place::TypeEnd;
            self.level.ty = array_type(self.level.ty);
            return Ok(());
        }
        self.act_key(kind, text)
    }

    fn act_type_end(&mut self, kind: TokenKind) -> Result<(), PartFault>
        ensures { Does result self.new (act_type_end kind self.old) }
    {
        if let TokenKind::Mark(Mark::CloseBracket) = kind {
            self.place = Place::Key;
            return Ok(());
        }
        Err(PartFault::Refused(RefusalKind::Syntax))
    }

    fn act_key(&mut self, kind: TokenKind, text: &str) -> Result<(), PartFault>
        ensures { Does result self.new (act_key kind text.now self.old) }
    {
        match kind {
            TokenKind::Name => {
                let key = Text::of(self.outer.allocator(), text)?;
                self.put_key(Some(key))
            }
            TokenKind::String => {
                let key = string_text(self.outer.allocator(), text)?;
                self.put_key(key)
            }
            _ => Err(PartFault::Refused(RefusalKind::Syntax)),
        }
    }

    fn put_key(&mut self, key: Option<Text>) -> Result<(), PartFault>
        ensures { Does result self.new (key_act key self.old) }
    {
        let Some(key) = key else {
            return Err(PartFault::Refused(RefusalKind::NotUtf8));
        };
        if self.level.entries.has(&key) {
            return Err(PartFault::Refused(RefusalKind::DuplicateSpec));
        }
        self.place = Place::Equals;
        self.level.key = key;
        Ok(())
    }

    fn act_equals(&mut self, kind: TokenKind) -> Result<(), PartFault>
        ensures { Does result self.new (act_equals kind self.old) }
    {
        if let TokenKind::Mark(Mark::Equals) = kind {
            self.place = Place::Value;
            self.level.item = entry_shape(self.level.ty);
            return Ok(());
        }
        Err(PartFault::Refused(RefusalKind::Syntax))
    }

    fn act_behind_entry(&mut self, kind: TokenKind, text: &str) -> Result<(), PartFault>
        ensures { Does result self.new (act_behind_entry kind text.now self.old) }
    {
        match kind {
            TokenKind::Mark(Mark::Comma) | TokenKind::Mark(Mark::Semicolon) => {
                self.place = Place::EntryType;
                Ok(())
            }
            _ => self.act_entry(kind, text),
        }
    }

    fn act_dictionary(&mut self, kind: TokenKind) -> Result<(), PartFault>
        ensures { Does result self.new (act_dictionary kind self.old) }
    {
        match kind {
            TokenKind::Mark(Mark::OpenBrace) => self.open_dict(),
            _ => Err(PartFault::Refused(RefusalKind::Syntax)),
        }
    }
}
