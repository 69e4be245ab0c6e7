//! A value that goes to the end of a line.
ghost use Rattle.std.specs.Prelude.{◌∷◌, List};
ghost use Rattle.usda_lexer.specs.Words.{Word, left, word_of};
ghost use Rattle.script_words.specs.Answers.{Finds, Goes};
ghost use Rattle.script_words.specs.Values.{of_all, whole_value, value_from, value_in};

use crate::fault::LineFault;
use crate::words::tokens_of;
use sdf_paths::Path;
use sdf_values::Value;
use std::alloc::Global;
use usda_lexer::{Token, Tokens};
use usda_statements::OpenValue;
use usda_values::Shape;

/// The value, where it is complete.
fn whole_value(alloc: Global, value: &mut OpenValue) -> Result<Value, LineFault>
    ensures { Finds result (whole_value value.old) }
{
    if value.is_open() {
        Err(LineFault::Bad)
    } else {
        Ok(value.take(alloc))
    }
}

/// Takes a token: what is left behind it is read from what is there then.
fn take_token(
    alloc: Global,
    base: &Path,
    value: &mut OpenValue,
    token: &Token<'_>,
) -> Result<(), LineFault>
    ensures { (ws : List Word) → Goes result (value_from base.now value.old (word_of token.now ∷ ws)) (value_from base.now value.new ws) }
{
    Ok(value.give(alloc, base, token.kind, token.text)?)
}

/// The value that the tokens complete.
fn value_from(
    alloc: Global,
    base: &Path,
    value: &mut OpenValue,
    tokens: &mut Tokens<'_>,
) -> Result<Value, LineFault>
    ensures { Finds result (of_all (value_from base.now value.old) (left tokens.old)) }
{
    loop {
        match tokens.next() {
            Ok(Some(token)) => take_token(alloc, base, value, &token)?,
            Ok(None) => return whole_value(alloc, value),
            Err(_) => return Err(LineFault::Bad),
        }
    }
}

/// The value of all tokens of the bytes. A path that does not begin with `/` is taken from the prim `base`. `Bad` where they are no
/// value, or not one alone.
#[tactic(auto, unfolding(crate::specs::Values::value_in))]
pub fn value_in(alloc: Global, base: &Path, bytes: &[u8]) -> Result<Value, LineFault>
    ensures { Finds result (value_in base.now bytes.now) }
{
    let mut tokens = tokens_of(bytes).ok_or(LineFault::Bad)?;
    let mut value = OpenValue::new(alloc, Shape::Untyped, false);
    let found = value_from(alloc, base, &mut value, &mut tokens);
    drop(value);
    found
}
