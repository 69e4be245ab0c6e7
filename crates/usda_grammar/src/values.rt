//! Values, dictionaries and lists of names. Written by tools/grammar.py.
ghost use Rattle.std.specs.Option.{option_map};
ghost use Rattle.std.specs.Prelude.{◌≡◌, List};
ghost use Rattle.usda_grammar.specs.Values.{value, members_or_end, more_members, elements_or_end, more_elements, dictionary, dictionary_entries, entry_key, maybe_separator, name_list, names_or_end, more_names, values_starts};

use crate::kinds::{Keyword, WordKind};
use crate::symbols::Symbol;

const NONE: &[Symbol] = &[];

/// A value.
fn value(kind: WordKind) -> Option<&'static [Symbol]>
    ensures { option_map (λ s. s.now) result ≡ value kind }
{
    match kind {
        WordKind::Word(_) => Some(NONE),
        WordKind::Number => Some(NONE),
        WordKind::Quoted => Some(NONE),
        WordKind::Asset => Some(NONE),
        WordKind::Path => Some(NONE),
        WordKind::OpenParen => Some(&[Symbol::Value, Symbol::MoreMembers]),
        WordKind::OpenBracket => Some(&[Symbol::ElementsOrEnd]),
        WordKind::OpenBrace => Some(&[Symbol::DictionaryEntries, Symbol::CloseBrace]),
        _ => None,
    }
}

/// The next of the members of a tuple, or the end of them.
fn members_or_end(kind: WordKind) -> Option<&'static [Symbol]>
    ensures { option_map (λ s. s.now) result ≡ members_or_end kind }
{
    match kind {
        WordKind::Word(_) => Some(&[Symbol::MoreMembers]),
        WordKind::CloseParen => Some(NONE),
        WordKind::Number => Some(&[Symbol::MoreMembers]),
        WordKind::Quoted => Some(&[Symbol::MoreMembers]),
        WordKind::Asset => Some(&[Symbol::MoreMembers]),
        WordKind::Path => Some(&[Symbol::MoreMembers]),
        WordKind::OpenParen => Some(&[Symbol::Value, Symbol::MoreMembers, Symbol::MoreMembers]),
        WordKind::OpenBracket => Some(&[Symbol::ElementsOrEnd, Symbol::MoreMembers]),
        WordKind::OpenBrace => Some(&[
            Symbol::DictionaryEntries,
            Symbol::CloseBrace,
            Symbol::MoreMembers,
        ]),
        _ => None,
    }
}

/// What follows one of the members of a tuple.
fn more_members(kind: WordKind) -> Option<&'static [Symbol]>
    ensures { option_map (λ s. s.now) result ≡ more_members kind }
{
    match kind {
        WordKind::Comma => Some(&[Symbol::MembersOrEnd]),
        WordKind::CloseParen => Some(NONE),
        _ => None,
    }
}

/// The next of the elements of an array, or the end of them.
fn elements_or_end(kind: WordKind) -> Option<&'static [Symbol]>
    ensures { option_map (λ s. s.now) result ≡ elements_or_end kind }
{
    match kind {
        WordKind::Word(_) => Some(&[Symbol::MoreElements]),
        WordKind::CloseBracket => Some(NONE),
        WordKind::Number => Some(&[Symbol::MoreElements]),
        WordKind::Quoted => Some(&[Symbol::MoreElements]),
        WordKind::Asset => Some(&[Symbol::MoreElements]),
        WordKind::Path => Some(&[Symbol::MoreElements]),
        WordKind::OpenParen => Some(&[Symbol::Value, Symbol::MoreMembers, Symbol::MoreElements]),
        WordKind::OpenBracket => Some(&[Symbol::ElementsOrEnd, Symbol::MoreElements]),
        WordKind::OpenBrace => Some(&[
            Symbol::DictionaryEntries,
            Symbol::CloseBrace,
            Symbol::MoreElements,
        ]),
        _ => None,
    }
}

/// What follows one of the elements of an array.
fn more_elements(kind: WordKind) -> Option<&'static [Symbol]>
    ensures { option_map (λ s. s.now) result ≡ more_elements kind }
{
    match kind {
        WordKind::Comma => Some(&[Symbol::ElementsOrEnd]),
        WordKind::CloseBracket => Some(NONE),
        _ => None,
    }
}

/// A dictionary.
fn dictionary(kind: WordKind) -> Option<&'static [Symbol]>
    ensures { option_map (λ s. s.now) result ≡ dictionary kind }
{
    match kind {
        WordKind::OpenBrace => Some(&[Symbol::DictionaryEntries, Symbol::CloseBrace]),
        _ => None,
    }
}

/// The entries of a dictionary.
fn dictionary_entries(kind: WordKind) -> Option<&'static [Symbol]>
    ensures { option_map (λ s. s.now) result ≡ dictionary_entries kind }
{
    match kind {
        WordKind::Word(Keyword::Dictionary) => Some(&[
            Symbol::EntryKey,
            Symbol::Equals,
            Symbol::Value,
            Symbol::MaybeSeparator,
            Symbol::DictionaryEntries,
        ]),
        WordKind::Word(_) => Some(&[
            Symbol::MaybeBrackets,
            Symbol::EntryKey,
            Symbol::Equals,
            Symbol::Value,
            Symbol::MaybeSeparator,
            Symbol::DictionaryEntries,
        ]),
        _ => None,
    }
}

/// The key of an entry.
fn entry_key(kind: WordKind) -> Option<&'static [Symbol]>
    ensures { option_map (λ s. s.now) result ≡ entry_key kind }
{
    match kind {
        WordKind::Word(_) => Some(NONE),
        WordKind::Quoted => Some(NONE),
        _ => None,
    }
}

/// `;` or `,`, or nothing.
fn maybe_separator(kind: WordKind) -> Option<&'static [Symbol]>
    ensures { option_map (λ s. s.now) result ≡ maybe_separator kind }
{
    match kind {
        WordKind::Semicolon => Some(NONE),
        WordKind::Comma => Some(NONE),
        _ => None,
    }
}

/// A list of names in quotes.
fn name_list(kind: WordKind) -> Option<&'static [Symbol]>
    ensures { option_map (λ s. s.now) result ≡ name_list kind }
{
    match kind {
        WordKind::OpenBracket => Some(&[Symbol::NamesOrEnd]),
        _ => None,
    }
}

/// The next of the names, or the end of them.
fn names_or_end(kind: WordKind) -> Option<&'static [Symbol]>
    ensures { option_map (λ s. s.now) result ≡ names_or_end kind }
{
    match kind {
        WordKind::CloseBracket => Some(NONE),
        WordKind::Quoted => Some(&[Symbol::MoreNames]),
        _ => None,
    }
}

/// What follows one of the names.
fn more_names(kind: WordKind) -> Option<&'static [Symbol]>
    ensures { option_map (λ s. s.now) result ≡ more_names kind }
{
    match kind {
        WordKind::Comma => Some(&[Symbol::NamesOrEnd]),
        WordKind::CloseBracket => Some(NONE),
        _ => None,
    }
}

/// What follows a token that is the first of a symbol of this part, where it may be the first.
pub fn starts(symbol: Symbol, kind: WordKind) -> Option<&'static [Symbol]>
    ensures { option_map (λ s. s.now) result ≡ values_starts symbol kind }
{
    match symbol {
        Symbol::Value => value(kind),
        Symbol::MembersOrEnd => members_or_end(kind),
        Symbol::MoreMembers => more_members(kind),
        Symbol::ElementsOrEnd => elements_or_end(kind),
        Symbol::MoreElements => more_elements(kind),
        Symbol::Dictionary => dictionary(kind),
        Symbol::DictionaryEntries => dictionary_entries(kind),
        Symbol::EntryKey => entry_key(kind),
        Symbol::MaybeSeparator => maybe_separator(kind),
        Symbol::NameList => name_list(kind),
        Symbol::NamesOrEnd => names_or_end(kind),
        Symbol::MoreNames => more_names(kind),
        _ => None,
    }
}
