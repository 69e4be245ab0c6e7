//! The table: what each symbol may begin with, and which symbols may be absent. Written by tools/grammar.py.
ghost use Rattle.std.specs.Option.{option_map};
ghost use Rattle.std.specs.Prelude.{◌≡◌, List};
ghost use Rattle.usda_grammar.specs.Table.{starts, may_be_absent, layer};

use crate::kinds::WordKind;
use crate::symbols::Symbol;
use crate::{layers, prims, properties, values};

/// A layer: its head and its root prims.
pub fn layer() -> &'static [Symbol]
    ensures { result.now ≡ layer }
{
    &[Symbol::MaybeHead, Symbol::RootStatements]
}

/// What follows a token that is the first of a symbol, where it may be the first.
pub fn starts(symbol: Symbol, kind: WordKind) -> Option<&'static [Symbol]>
    ensures { option_map (λ s. s.now) result ≡ starts symbol kind }
{
    if let Some(after) = layers::starts(symbol, kind) {
        Some(after)
    } else if let Some(after) = prims::starts(symbol, kind) {
        Some(after)
    } else if let Some(after) = properties::starts(symbol, kind) {
        Some(after)
    } else {
        values::starts(symbol, kind)
    }
}

/// Whether nothing may stand for the symbol.
pub fn may_be_absent(symbol: Symbol) -> bool
    ensures { result ≡ may_be_absent symbol }
{
    match symbol {
        Symbol::MaybeSemicolon => true,
        Symbol::MaybeHead => true,
        Symbol::HeadItems => true,
        Symbol::MaybeOffsets => true,
        Symbol::OffsetItems => true,
        Symbol::RootStatements => true,
        Symbol::MaybeTypeName => true,
        Symbol::MaybePrimMetadata => true,
        Symbol::PrimMetadata => true,
        Symbol::MaybePath => true,
        Symbol::VariantList => true,
        Symbol::PrimBody => true,
        Symbol::MaybeBrackets => true,
        Symbol::MaybeAttributeTail => true,
        Symbol::MaybeTargets => true,
        Symbol::MaybePropertyMetadata => true,
        Symbol::PropertyMetadata => true,
        Symbol::DictionaryEntries => true,
        Symbol::MaybeSeparator => true,
        _ => false,
    }
}
