//! A text read word by word.
ghost use Rattle.std.specs.Prelude.{◌≡◌, ◌∷◌, ℕ, List};
ghost use Rattle.usda_machine.specs.Stacks.{stack_of};
ghost use Rattle.usda_words.specs.Words.{Word as SaidWord};
ghost use Rattle.usda_words.specs.Sources.{word_of, words_left};
ghost use Rattle.usda_drafts.specs.Refusals.{Does, refused};
ghost use Rattle.usda_reader.specs.Reading.{run_from, GoesOn};

use plain_data::Items;
use sdf_values::RefusalKind;
use usda_drafts::{ActFault, Draft, Refused};
use usda_grammar::Symbol;
use usda_machine::{is_done, step};
use usda_words::{Word, Words};

/// No text goes on at this byte.
fn syntax(at: usize) -> ActFault
    ensures { result ≡ ActFault.Refused (refused RefusalKind.Syntax at) }
{
    ActFault::Refused(Refused {
        kind: RefusalKind::Syntax,
        at,
    })
}

/// Takes a word: what is left behind it is read from the symbols and the draft that are there then.
fn take_word(stack: &mut Items<Symbol>, draft: &mut Draft, word: &Word<'_>) -> Result<(), ActFault>
    ensures { (end : ℕ) (ws : List SaidWord) → GoesOn result (run_from end (stack_of stack.old) draft.old (word_of word.now ∷ ws)) (run_from end (stack_of stack.new) draft.new ws) }
{
    match step(stack, word.kind)? {
        Some(symbol) => draft.act(symbol, word),
        None => Err(syntax(word.start)),
    }
}

/// Takes all words that are left, and sees that the text of this length may end behind them.
pub fn take_words(
    words: &mut Words<'_>,
    stack: &mut Items<Symbol>,
    draft: &mut Draft,
    end: usize,
) -> Result<(), ActFault>
    ensures { Does result draft.new (run_from end (stack_of stack.old) draft.old (words_left words.old)) }
{
    while let Some(word) = words.next() {
        if let Err(fault) = take_word(stack, draft, &word) {
            return Err(fault);
        }
    }
    if is_done(stack) {
        Ok(())
    } else {
        Err(syntax(end))
    }
}
