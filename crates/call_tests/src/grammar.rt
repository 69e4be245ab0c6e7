//! Each call once.
use std::test::Fail;
use usda_grammar::{
    Keyword, Symbol, WordKind, accepted_is_text, examples_are_told, keyword_of, kind_of_word,
    layer, may_be_absent, refused_has_no_text, starts, taken_has_text, text_has_one_derivation,
};

#[test]
fn the_table_is_told(rt: HostRuntime) -> Result<(), Fail> {
    assert!(rt;
        kind_of_word("def") == WordKind::Word(Keyword::Specifier)
            && keyword_of("payload") == Keyword::ReferenceField
            && keyword_of("defs") == Keyword::Other
            && layer().len() == 2
            && may_be_absent(Symbol::MaybeHead)
            && !may_be_absent(Symbol::Value)
    );
    Ok(())
}

#[test]
fn a_value_may_start_with_a_number_and_with_no_comma(rt: HostRuntime) -> Result<(), Fail> {
    assert!(rt;
        starts(Symbol::Value, WordKind::Number) == Some([].as_slice())
            && starts(Symbol::Value, WordKind::Comma).is_none()
    );
    Ok(())
}

#[test]
fn the_laws_are_calls_that_do_nothing() {
    accepted_is_text();
    refused_has_no_text();
    taken_has_text();
    text_has_one_derivation();
    examples_are_told();
}
