//! Each call with ample memory.
use std::test::Fail;
use usd_names::{
    goes_on, is_continue, is_identifier, is_name, is_number_word, is_start, is_variant_character,
};

/// Characters, each with whether an identifier begins with it, goes on with it, and whether it stands in the name of a variant.
const CHARACTERS: [(char, bool, bool, bool); 8] = [
    ('_', true, true, true),
    ('é', true, true, true),
    ('1', false, true, true),
    ('7', false, true, true),
    (':', false, false, false),
    ('-', false, false, true),
    ('|', false, false, true),
    ('.', false, false, false),
];

#[test]
fn characters_begin_names_or_stand_in_them(rt: HostRuntime) -> Result<(), Fail> {
    for (character, begins, stands, in_variants) in CHARACTERS {
        assert!(rt;
            is_start(character) == begins
                && goes_on(false, character) == begins
                && is_continue(character) == stands
                && goes_on(true, character) == stands
                && is_variant_character(character) == in_variants
        );
    }
    Ok(())
}

/// Texts, each with whether it is an identifier, a name, and a word that is a number: names are identifiers joined by colons, and
/// no numbers.
const TEXTS: [(&str, bool, bool, bool); 25] = [
    ("", false, false, false),
    ("a", true, true, false),
    ("_", true, true, false),
    ("_1", true, true, false),
    ("é", true, true, false),
    ("Größe", true, true, false),
    ("1a", false, false, false),
    ("a b", false, false, false),
    ("a-b", false, false, false),
    (":", false, false, false),
    ("a:", false, false, false),
    (":a", false, false, false),
    ("a:b", false, true, false),
    ("a::b", false, false, false),
    ("a:1", false, false, false),
    ("a1:_2", false, true, false),
    ("inf", true, false, true),
    ("nan", true, false, true),
    ("in", true, true, false),
    ("infx", true, true, false),
    ("nana", true, true, false),
    ("inf:a", false, true, false),
    ("inf:nan", false, true, false),
    ("-inf", false, false, false),
    ("Inf", true, true, false),
];

#[test]
fn names_are_identifiers_joined_by_colons(rt: HostRuntime) -> Result<(), Fail> {
    for (text, identifier, name, number) in TEXTS {
        assert!(rt;
            is_identifier(text) == identifier
                && is_name(text) == name
                && is_number_word(text) == number
        );
    }
    Ok(())
}
