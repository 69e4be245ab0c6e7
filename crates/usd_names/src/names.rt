//! The characters of names, and whether a text is an identifier.
ghost use Rattle.std.specs.Prelude.{◌≡◌, false};
ghost use Rattle.std.specs.Str.{chars};
ghost use Rattle.usd_names.specs.Names.{is_start, is_variant_character, spells_identifier, spells_joined, is_identifier, is_name, is_number_word, goes_on};
ghost use Rattle.unicode_ident.specs.Ident.{is_xid_continue};

/// Whether an identifier may begin with the character: XID start characters and `_`.
#[tactic(auto, unfolding(crate::specs::Names::is_start))]
pub fn is_start(c: char) -> bool
    ensures { result ≡ is_start c }
{
    unicode_ident::is_xid_start(c) || c == '_'
}

/// Whether an identifier may go on with the character: XID continue characters.
pub fn is_continue(c: char) -> bool
    ensures { result ≡ is_xid_continue c }
{
    unicode_ident::is_xid_continue(c)
}

/// Whether the character may stand in the name of a variant: XID continue characters, `|` and `-`.
#[tactic(auto, unfolding(crate::specs::Names::is_variant_character))]
pub fn is_variant_character(c: char) -> bool
    ensures { result ≡ is_variant_character c }
{
    unicode_ident::is_xid_continue(c) || c == '|' || c == '-'
}

/// Whether an identifier may go on with the character, or begin with it where it has not begun.
pub fn goes_on(begun: bool, c: char) -> bool
    ensures { result ≡ goes_on begun c }
{
    if begun { is_continue(c) } else { is_start(c) }
}

/// Whether the characters of a text are an identifier.
fn spells_identifier(text: &str) -> bool
    ensures { result ≡ spells_identifier (chars text.now) }
{
    let mut begun = false;
    for c in text.chars() {
        if !goes_on(begun, c) {
            return false;
        }
        begun = true;
    }
    begun
}

/// Whether a text is an identifier.
#[tactic(auto, unfolding(crate::specs::Names::is_identifier))]
pub fn is_identifier(text: &str) -> bool
    ensures { result ≡ is_identifier text.now }
{
    spells_identifier(text)
}

/// Whether the text is a word that stands for a number: `inf` or `nan`.
pub fn is_number_word(text: &str) -> bool
    ensures { result ≡ is_number_word text.now }
{
    text == "inf" || text == "nan"
}

/// Whether the text may stand as a name: identifiers joined by `:`, but not `inf` or `nan`, which are numbers.
pub fn is_name(text: &str) -> bool
    ensures { result ≡ is_name text.now }
{
    is_chain(text) && !is_number_word(text)
}

/// Identifiers joined by colons.
fn is_chain(text: &str) -> bool
    ensures { result ≡ spells_joined false (chars text.now) }
{
    let mut begun = false;
    for c in text.chars() {
        if !begun {
            if !is_start(c) {
                return false;
            }
            begun = true;
        } else if c == ':' {
            begun = false;
        } else if !is_continue(c) {
            return false;
        }
    }
    begun
}
