ghost use Rattle.std.specs.Prelude.{◌≡◌, IfOk};
ghost use Rattle.variant_select.specs.Rounds.{choices};

use crate::met::Choices;
use crate::opinions::Opinions;
use crate::round::choose_all;
use std::alloc::{AllocError, Global};

/// How many rounds are made at most.
pub const MAX_ROUNDS: usize = 16;

/// The variants that are chosen by sixteen rounds from no choice.
///
/// In each round every set that is met with the choices so far and has none takes the first opinion
/// on it, in the order of the list, if there is one. After a round that decides nothing the others
/// would decide nothing either, and are not made.
pub fn decide<O: Opinions>(alloc: Global, from: &mut O) -> Result<Choices, AllocError>
    ensures choices { IfOk result (λ chosen. chosen ≡ choices (O.met_with from.old)) }
    ensures same { O.met_with from.new ≡ O.met_with from.old }
{
    let mut chosen = Choices::new(alloc);
    for _round in 0..MAX_ROUNDS {
        let found = from.met(&chosen)?;
        let before = chosen.len();
        choose_all(alloc, &mut chosen, found.as_slice())?;
        if chosen.len() == before {
            return Ok(chosen);
        }
    }
    Ok(chosen)
}
