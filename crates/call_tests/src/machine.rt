//! Each call with ample memory.
use plain_data::Items;
use std::test::Fail;
use usda_grammar::{Keyword, Symbol, WordKind};
use usda_machine::{is_done, push_front, step};

/// `over "name" { }`: each token with the symbol that takes it.
const PRIM: [(WordKind, Symbol); 4] = [
    (WordKind::Word(Keyword::Specifier), Symbol::RootStatements),
    (WordKind::Quoted, Symbol::PrimName),
    (WordKind::OpenBrace, Symbol::OpenBrace),
    (WordKind::CloseBrace, Symbol::BodyEnd),
];

/// Whether the prim is taken token by token.
fn takes_prim(stack: &mut Items<Symbol>) -> Result<bool, Fail> {
    for (kind, symbol) in PRIM {
        if step(stack, kind)? != Some(symbol) {
            return Ok(false);
        }
    }
    Ok(true)
}

#[test]
fn a_prim_is_taken_token_by_token(rt: HostRuntime) -> Result<(), Fail> {
    let mut stack = Items::new(rt.alloc());
    push_front(&mut stack, &[Symbol::MaybeHead, Symbol::RootStatements])?;
    let taken = takes_prim(&mut stack)?;
    let done = is_done(&mut stack);
    push_front(&mut stack, &[Symbol::Value])?;
    let refused = step(&mut stack, WordKind::Comma)?;
    push_front(&mut stack, &[Symbol::Value])?;
    assert!(rt; taken && done && refused.is_none() && !is_done(&mut stack));
    Ok(())
}
