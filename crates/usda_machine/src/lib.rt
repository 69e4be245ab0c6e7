//! Reads a text by the grammar, token by token: which symbol takes the next token, and whether the text may end.
//!
//! The symbols still to come are kept as a list, the innermost last. What the tokens mean is not looked at here: the lemmas say,
//! for whatever they mean, that a run gives exactly what the grammar makes of a text, or its first refusal.
#![tactic(auto)]

ghost use Rattle.std.specs.Prelude.{◌≡◌, ◌++◌, ◌<◌, OnOk};
ghost use Rattle.usda_grammar.specs.Machine.{step, is_done};
ghost use Rattle.usda_machine.specs.Laws.{KindsAreExact};
ghost use Rattle.usda_machine.specs.Stacks.{stack_of, Steps};

use plain_data::Items;
use std::alloc::AllocError;
use usda_grammar::{Symbol, WordKind, may_be_absent, starts};

/// Puts symbols in front of those still to come. After want of memory a part of them may be there.
pub fn push_front(stack: &mut Items<Symbol>, after: &[Symbol]) -> Result<(), AllocError>
    ensures { OnOk result (stack_of stack.new ≡ after.now ++ stack_of stack.old) }
{
    let count = after.len();
    for i in 0..count {
        stack.push(after[count - 1 - i])?;
    }
    Ok(())
}

/// The symbol that takes the token, if one does; behind it the stack has what then follows. Where none does, or memory runs
/// out, the reading is at its end.
pub fn step(stack: &mut Items<Symbol>, kind: WordKind) -> Result<Option<Symbol>, AllocError>
    ensures { Steps result (stack_of stack.new) (step (stack_of stack.old) kind) }
{
    while let Some(symbol) = stack.pop() {
        if let Some(after) = starts(symbol, kind) {
            push_front(stack, after)?;
            return Ok(Some(symbol));
        }
        if !may_be_absent(symbol) {
            return Ok(None);
        }
    }
    Ok(None)
}

/// Whether the text may end here. The stack is of no use then. Takes no memory.
pub fn is_done(stack: &mut Items<Symbol>) -> bool
    ensures { result ≡ is_done (stack_of stack.old) }
{
    while let Some(symbol) = stack.pop() {
        if !may_be_absent(symbol) {
            return false;
        }
    }
    true
}

/// A run over mere kinds of tokens gives exactly what the grammar makes of them, or their first refusal, whichever of them are refused
/// where they are taken. The crates above state the same law for what their words mean.
pub fn kinds_are_exact()
    ensures { KindsAreExact }
{}
