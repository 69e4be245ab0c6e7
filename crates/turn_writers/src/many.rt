ghost use Rattle.std.specs.Prelude.{◌≡◌, ℕ, ◌<◌, ◌≤◌, [], ◌∷◌, ◌++◌, IfOk};
ghost use denote.Param.Send.{IsSync};
ghost use Rattle.turn_lock.specs.Weights.{times};
ghost use Rattle.turn_lock.specs.Seats.{IsSeatOf, IsFree, SameNumbers, number, seen, numbers, spare_numbers, own_entries};
ghost use Rattle.turn_writers.specs.Books.{writer, EachWrote, IsWrittenBy};

use crate::book::Book;
use crate::turns::write;
use plain_data::Items;
use std::alloc::{AllocError, Global};
use std::sync::Wait;
use std::thread::{Threads, join};
use turn_lock::{Desk, Seat};

/// The seat and one of each of its spare numbers write this many entries each, in threads of their own. The seat has then all
/// the numbers.
fn write_all<R: Threads + Wait + Sync>(
    rt: &R,
    desk: &Desk<Book>,
    mut seat: Seat<Book>,
    steps: u64,
) -> (Seat<Book>, Result<(), AllocError>)
    requires seat { IsSeatOf desk.now seat × IsFree seat × (numbers seat ≡ number seat ∷ []) }
    requires fresh { own_entries writer (numbers seat) (seen seat) ≡ [] }
    ensures seat { IsSeatOf desk.now result.0 × IsFree result.0 × (spare_numbers result.0 ≡ []) }
    ensures numbers { (k : ℕ) → times k (numbers result.0) ≡ times k (numbers seat ++ spare_numbers seat) }
    ensures written { IfOk result.1 (λ _. EachWrote steps (numbers result.0) (seen result.0)) }
{
    let Ok(other) = desk.split_seat(&mut seat) else {
        return write(rt, desk, seat, steps);
    };
    let (one, two) = join(
        rt,
        || -> (Seat<Book>, Result<(), AllocError>)
            requires sync { IsSync R.row }
            requires seat { IsSeatOf desk.now seat × IsFree seat × (numbers seat ≡ number seat ∷ []) }
            requires fresh { own_entries writer (numbers seat) (seen seat) ≡ [] }
            ensures seat { IsSeatOf desk.entry.now result.0 × IsFree result.0 × (spare_numbers result.0 ≡ []) }
            ensures numbers { (k : ℕ) → times k (numbers result.0) ≡ times k (numbers seat ++ spare_numbers seat) }
            ensures written { IfOk result.1 (λ _. EachWrote steps (numbers result.0) (seen result.0)) }
        { write_all(rt, desk, seat, steps) },
        || -> (Seat<Book>, Result<(), AllocError>)
            requires seat { IsSeatOf desk.now other × IsFree other × (numbers other ≡ number other ∷ []) }
            requires fresh { own_entries writer (numbers other) (seen other) ≡ [] }
            ensures seat { IsSeatOf desk.entry.now result.0 × IsFree result.0 × SameNumbers other result.0 }
            ensures written { IfOk result.1 (λ _. EachWrote steps (numbers result.0) (seen result.0)) }
        { write(rt, desk, other, steps) },
    );
    let (mut seat, done) = one;
    let (other, done_too) = two;
    desk.join_seat(&mut seat, other);
    match done {
        Ok(()) => (seat, done_too),
        Err(error) => (seat, Err(error)),
    }
}

/// As many threads as there are seats, 1 to 256, write this many entries each, in whatever order. The book then has just these.
///
/// # Errors
///
/// Memory ran out.
pub fn write_by_many<R: Threads + Wait + Sync>(
    rt: &R,
    alloc: Global,
    seats: u32,
    steps: u64,
) -> Result<Book, AllocError>
    requires { (1 ≤ seats) × (seats ≤ 256) }
    ensures { IfOk result (λ book. IsWrittenBy seats steps book.entries) }
{
    let (desk, first) = Desk::new(
        alloc,
        seats,
        Book {
            entries: Items::new(alloc),
        },
    )?;
    let (seat, done) = write_all(rt, &desk, first, steps);
    done?;
    Ok(desk.close(seat))
}
