ghost use Rattle.std.specs.Prelude.{◌≡◌, [], ◌∷◌, ◌++◌, IfOk, IfErr};
ghost use Rattle.turn_lock.specs.Seats.{IsSeatOf, IsFree, SameNumbers, number, seen, numbers, own_entries};
ghost use Rattle.turn_writers.specs.Books.{writer, entry, written, EachWrote, WroteFewer};

use crate::book::Book;
use crate::entry::Entry;
use std::alloc::AllocError;
use std::sync::Wait;
use turn_lock::{Desk, Seat};

/// Writes one entry, in one turn.
///
/// # Errors
///
/// Memory ran out. The seat has then written nothing.
pub fn add<R: Wait>(
    rt: &R,
    desk: &Desk<Book>,
    seat: &mut Seat<Book>,
    step: u64,
) -> Result<(), AllocError>
    requires { IsSeatOf desk.now seat.old × IsFree seat.old }
    ensures seat { IsSeatOf desk.now seat.new × IsFree seat.new × SameNumbers seat.old seat.new }
    ensures added { IfOk result (λ _. own_entries writer (numbers seat.old) (seen seat.new) ≡ own_entries writer (numbers seat.old) (seen seat.old) ++ entry (number seat.old) step ∷ []) }
    ensures refused { IfErr result (λ _. own_entries writer (numbers seat.old) (seen seat.new) ≡ own_entries writer (numbers seat.old) (seen seat.old)) }
{
    let mut book = desk.take_turn(rt, seat);
    let by = seat.number();
    let pushed = book.entries.push(Entry { by, step });
    desk.give_back(seat, book);
    pushed
}

/// Writes this many entries with a seat that has written none yet, in a turn each.
///
/// # Errors
///
/// Memory ran out. The seat has then written the first of them, in order, and at least one is missing.
pub fn write<R: Wait>(
    rt: &R,
    desk: &Desk<Book>,
    mut seat: Seat<Book>,
    steps: u64,
) -> (Seat<Book>, Result<(), AllocError>)
    requires seat { IsSeatOf desk.now seat × IsFree seat × (numbers seat ≡ number seat ∷ []) }
    requires fresh { own_entries writer (numbers seat) (seen seat) ≡ [] }
    ensures seat { IsSeatOf desk.now result.0 × IsFree result.0 × SameNumbers seat result.0 }
    ensures written { IfOk result.1 (λ _. EachWrote steps (numbers result.0) (seen result.0)) }
    ensures stopped { IfErr result.1 (λ _. WroteFewer steps (number seat) (numbers seat) (seen result.0)) }
{
    for step in 0..steps {
        if let Err(error) = add(rt, desk, &mut seat, step) {
            return (seat, Err(error));
        }
    }
    (seat, Ok(()))
}
