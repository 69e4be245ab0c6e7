ghost use Rattle.std.specs.Prelude.{◌≡◌, [], ◌∷◌, IfOk};
ghost use Rattle.turn_lock.specs.Seats.{IsSeatOf, IsFree, SameNumbers, number, seen, numbers, own_entries};
ghost use Rattle.turn_writers.specs.Books.{writer, EachWrote, IsWrittenBy};

use crate::book::Book;
use crate::turns::write;
use plain_data::Items;
use std::alloc::{AllocError, Global};
use std::sync::Wait;
use std::thread::{Threads, join};
use turn_lock::{Desk, Seat};

/// Two threads write this many entries each, in whatever order. The book then has just these.
///
/// # Errors
///
/// Memory ran out.
pub fn write_by_two<R: Threads + Wait + Sync>(
    rt: &R,
    alloc: Global,
    steps: u64,
) -> Result<Book, AllocError>
    ensures { IfOk result (λ book. IsWrittenBy 2 steps book.entries) }
{
    let (desk, mut first) = Desk::new(
        alloc,
        2,
        Book {
            entries: Items::new(alloc),
        },
    )?;
    let Ok(second) = desk.split_seat(&mut first) else {
        unreachable!()
    };
    let (one, two) = join(
        rt,
        || -> (Seat<Book>, Result<(), AllocError>)
            requires seat { IsSeatOf desk first × IsFree first × (numbers first ≡ number first ∷ []) }
            requires fresh { own_entries writer (numbers first) (seen first) ≡ [] }
            ensures seat { IsSeatOf desk result.0 × IsFree result.0 × SameNumbers first result.0 }
            ensures written { IfOk result.1 (λ _. EachWrote steps (numbers result.0) (seen result.0)) }
        { write(rt, &desk, first, steps) },
        || -> (Seat<Book>, Result<(), AllocError>)
            requires seat { IsSeatOf desk second × IsFree second × (numbers second ≡ number second ∷ []) }
            requires fresh { own_entries writer (numbers second) (seen second) ≡ [] }
            ensures seat { IsSeatOf desk result.0 × IsFree result.0 × SameNumbers second result.0 }
            ensures written { IfOk result.1 (λ _. EachWrote steps (numbers result.0) (seen result.0)) }
        { write(rt, &desk, second, steps) },
    );
    let (mut first, done) = one;
    let (second, done_too) = two;
    done?;
    done_too?;
    desk.join_seat(&mut first, second);
    Ok(desk.close(first))
}
