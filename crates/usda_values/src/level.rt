//! The levels of a value that is being read.
ghost use Rattle.std.specs.Prelude.{◌≡◌, OnOk, IfOk};
ghost use Rattle.usda_values.specs.Drafts.{new_level, one_fewer, is_full, is_lacking, give, give_member, give_entry, behind_value, is_statement, wrap_as, awaits_value, closes, array_type};

use crate::entries::Entries;
use crate::shape::Shape;
use plain_data::{Items, Text, copy};
use sdf_values::{DictItem, DictType, TypeName, Value};
use std::alloc::{AllocError, Global};
use usda_lexer::{Mark, TokenKind};

/// What a level is.
#[derive(Clone, Copy, Debug, PartialEq, Eq)]
pub enum Bracket {
    /// The value itself.
    Statement,
    /// What stands between `(` and `)`.
    Tuple,
    /// What stands between `[` and `]`.
    Array,
    /// What stands between `{` and `}`.
    Dict,
}

/// What may stand next.
#[derive(Clone, Copy, Debug, PartialEq, Eq)]
pub enum Place {
    /// A value.
    Value,
    /// A value, or the mark that closes the level.
    ValueOrEnd,
    /// A comma, or the mark that closes the level.
    BehindMember,
    /// The type of an entry, or the end of the dictionary.
    EntryType,
    /// `[` behind a type, or the key.
    BehindType,
    /// The `]` of a type.
    TypeEnd,
    /// The key of an entry.
    Key,
    /// The `=` of an entry.
    Equals,
    /// `;` or `,`, the type of a further entry, or the end of the dictionary.
    BehindEntry,
    /// A dictionary.
    Dictionary,
    /// Nothing: the value is complete.
    Complete,
}

/// A tuple, an array or a dictionary that is open, or the place of the whole value.
#[derive(Debug, Drop)]
pub struct Level {
    /// What the level is.
    pub bracket: Bracket,
    /// What the next member, or the value of the open entry, is to be.
    pub item: Shape,
    /// How many further members there are to be; nothing where any number may come.
    pub room: Option<usize>,
    /// The members so far.
    pub values: Items<Value>,
    /// The entries so far.
    pub entries: Entries,
    /// The key of the open entry.
    pub key: Text,
    /// The type of the open entry.
    pub ty: DictType,
}

/// Whether no further member may come.
pub fn is_full(room: Option<usize>) -> bool
    ensures { result ≡ is_full room }
{
    match room {
        None => false,
        Some(n) => n == 0,
    }
}

/// Whether a further member has to come.
pub fn is_lacking(room: Option<usize>) -> bool
    ensures { result ≡ is_lacking room }
{
    match room {
        None => false,
        Some(n) => n != 0,
    }
}

fn one_fewer(room: Option<usize>) -> Option<usize>
    ensures { result ≡ one_fewer room }
{
    match room {
        None => None,
        Some(n) => Some(n.saturating_sub(1)),
    }
}

/// What may stand behind a value.
pub fn behind_value(bracket: Bracket) -> Place
    ensures { result ≡ behind_value bracket }
{
    match bracket {
        Bracket::Statement => Place::Complete,
        Bracket::Tuple | Bracket::Array => Place::BehindMember,
        Bracket::Dict => Place::BehindEntry,
    }
}

/// Whether a value may stand there, and so a number.
pub fn awaits_value(place: Place) -> bool
    ensures { result ≡ awaits_value place }
{
    match place {
        Place::Value | Place::ValueOrEnd => true,
        _ => false,
    }
}

/// Whether this is the place of the whole value.
pub fn is_statement(bracket: Bracket) -> bool
    ensures { result ≡ is_statement bracket }
{
    match bracket {
        Bracket::Statement => true,
        _ => false,
    }
}

/// Whether the token closes the level.
pub fn closes(bracket: Bracket, kind: TokenKind) -> bool
    ensures { result ≡ closes bracket kind }
{
    match (bracket, kind) {
        (Bracket::Tuple, TokenKind::Mark(Mark::CloseParen)) => true,
        (Bracket::Array, TokenKind::Mark(Mark::CloseBracket)) => true,
        (Bracket::Dict, TokenKind::Mark(Mark::CloseBrace)) => true,
        _ => false,
    }
}

/// The type of an entry as one of arrays.
pub fn array_type(ty: DictType) -> DictType
    ensures { result ≡ array_type ty }
{
    match ty {
        DictType::Plain(ty) => DictType::Plain(TypeName {
            element: ty.element,
            array: true,
        }),
        DictType::Dictionary => DictType::Dictionary,
    }
}

impl Level {
    /// A level in which nothing stands yet; takes no memory.
    pub fn new(alloc: Global, bracket: Bracket, item: Shape, room: Option<usize>) -> Level
        ensures { result ≡ new_level bracket item room }
    {
        Level {
            bracket,
            item,
            room,
            values: Items::new(alloc),
            entries: Entries::new(alloc),
            key: Text::new(alloc),
            ty: DictType::Dictionary,
        }
    }

    /// Adds a member, or the value of the open entry. After want of memory the level is of no use.
    pub fn give(&mut self, value: Value) -> Result<(), AllocError>
        ensures { OnOk result (self.new ≡ give value self.old) }
    {
        match self.bracket {
            Bracket::Dict => self.give_entry(value),
            _ => self.give_member(value),
        }
    }

    fn give_member(&mut self, value: Value) -> Result<(), AllocError>
        ensures { OnOk result (self.new ≡ give_member value self.old) }
    {
        self.values.push(value)?;
        self.room = one_fewer(self.room);
        Ok(())
    }

    fn give_entry(&mut self, value: Value) -> Result<(), AllocError>
        ensures { OnOk result (self.new ≡ give_entry value self.old) }
    {
        let key = match copy(&self.key) {
            Ok(key) => key,
            Err(error) => {
                drop(value);
                return Err(error);
            }
        };
        match copy(&self.key) {
            Ok(again) => self.entries.put(
                key,
                DictItem {
                    key: again,
                    ty: self.ty,
                    value,
                },
            ),
            Err(error) => {
                drop((key, value));
                Err(error)
            }
        }
    }

    /// The value of a level that is closed.
    pub fn wrap(self, alloc: Global) -> Result<Value, AllocError>
        ensures { IfOk result (λ v. v ≡ wrap_as self.bracket self) }
    {
        let Level {
            bracket,
            values,
            entries,
            key,
            ..
        } = self;
        drop(key);
        match bracket {
            Bracket::Statement | Bracket::Tuple => {
                drop(entries);
                Ok(Value::Tuple(values))
            }
            Bracket::Array => {
                drop(entries);
                Ok(Value::Array(values))
            }
            Bracket::Dict => {
                drop(values);
                Ok(Value::Dict(entries.into_items(alloc)?))
            }
        }
    }
}
