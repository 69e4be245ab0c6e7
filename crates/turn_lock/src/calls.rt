ghost use Rattle.std.specs.Prelude.{◌≡◌, ◌↔◌, List, ◌+◌, ◌-◌, ◌<◌, ◌≤◌, [], ◌∷◌, ◌++◌, All, IfOk, IfErr, IsErr};
ghost use Rattle.turn_lock.specs.Weights.{times};
ghost use Rattle.turn_lock.specs.Turns.{GoesOn, Longer, Adds};
ghost use Rattle.turn_lock.specs.Seats.{IsSeatOf, IsFree, HasTurn, HasAll, SameNumbers, number, seen, numbers, spare_numbers, spares, part_of, own_entries, desk_name, seats_of, numbers_from};

use crate::desk::{Desk, SplitRefused};
use crate::rule::{Advance, Both, Cut, Draw, Journalled, Look, Settle, Terms, Unborne};
use crate::seat::Seat;
use atomic_table::{Refused, Table};
use std::alloc::{AllocError, Global};
use std::snapshot::Snapshot;
use std::sync::Wait;

impl<T: Journalled> Seat<T> {
    /// The number that the seat's entries bear.
    pub fn number(&self) -> u64
        ensures { result ≡ number self.now }
    {
        self.number
    }

    /// How many spare numbers the seat has, each of which one split uses up.
    pub fn spare(&self) -> u32
        ensures { result ≡ spares self.now }
    {
        self.spare
    }
}

impl<T: Journalled> Desk<T> {
    /// A desk for this many seats, 1 to 256, and its first seat. That one has the number 0, and the others as spare ones.
    ///
    /// # Errors
    ///
    /// Memory ran out. The value is dropped.
    pub fn new(alloc: Global, seats: u32, value: T) -> Result<(Desk<T>, Seat<T>), AllocError>
    where
        T: Drop,
        requires seats { (1 ≤ seats) × (seats ≤ 256) }
        requires first { All (λ e. T.bears e ≡ 0) (T.entries value) }
        ensures desk { IfOk result (λ r. (desk_name T.named r.0 ≡ T.named value) × (seats_of r.0 ≡ seats)) }
        ensures seat { IfOk result (λ r. IsSeatOf r.0 r.1 × IsFree r.1) }
        ensures numbers { IfOk result (λ r. (number r.1 ≡ 0) × (numbers r.1 ≡ 0 ∷ []) × (spare_numbers r.1 ≡ numbers_from 1 (seats - 1))) }
        ensures seen { IfOk result (λ r. seen r.1 ≡ T.entries value) }
    {
        let terms = Terms {
            first: Snapshot::of(&value),
            seats,
        };
        let mut slots = Vec::with_capacity(alloc, 1)?;
        slots.push_reserved(Some(value));
        match Table::new(alloc, &[0, 0], slots, &terms) {
            Ok((table, place)) => Ok((
                Desk { table },
                Seat {
                    place,
                    number: 0,
                    least: 1,
                    spare: seats - 1,
                },
            )),
            Err(Refused { slots: _ }) => Err(AllocError),
        }
    }

    /// Waits for the seat's turn, and takes the value. Its list begins with what the seat has seen, and goes on with entries of others.
    /// It waits for the turns that were asked for before, and whoever has one may keep it for ever.
    pub fn take_turn<R: Wait>(&self, rt: &R, seat: &mut Seat<T>) -> T
        requires seat { IsSeatOf self.now seat.old × IsFree seat.old }
        ensures turn { IsSeatOf self.now seat.new × HasTurn seat.new (T.entries result) }
        ensures same { SameNumbers seat.old seat.new × (seen seat.new ≡ seen seat.old) }
        ensures name { T.named result ≡ desk_name T.named self.now }
        ensures found { GoesOn T.bears (part_of seat.old) (T.entries result) }
        ensures own { own_entries T.bears (numbers seat.old) (T.entries result) ≡ own_entries T.bears (numbers seat.old) (seen seat.old) }
    {
        let shared = &self.table.shared;
        let ticket = shared.fetch_add::<Draw<T>>(&mut seat.place, 0, 1);
        for _ in rt.forever() {
            let serving = shared.load::<Look<T>>(&mut seat.place, 1);
            if serving == ticket {
                return shared.exchange(&mut seat.place, 0, None).unwrap();
            }
            shared.park(rt, 1, (serving % 0x1_0000_0000) as u32);
        }
        unreachable!()
    }

    /// Puts the value back, with entries of the seat's own behind those that it came with, and ends the turn. It takes no memory.
    pub fn give_back(&self, seat: &mut Seat<T>, value: T)
        requires seat { IsSeatOf self.now seat.old }
        requires turn { (taken : List T.Entry) × HasTurn seat.old taken × Adds T.bears (number seat.old) taken (T.entries value) }
        requires name { T.named value ≡ desk_name T.named self.now }
        ensures seat { IsSeatOf self.now seat.new × IsFree seat.new × SameNumbers seat.old seat.new }
        ensures seen { seen seat.new ≡ T.entries value }
        // what was added stands behind the own entries that there were
        ensures own { (taken added : List T.Entry) → HasTurn seat.old taken → T.entries value ≡ taken ++ added
            → own_entries T.bears (numbers seat.old) (seen seat.new) ≡ own_entries T.bears (numbers seat.old) taken ++ added }
    {
        let shared = &self.table.shared;
        let left = shared.exchange(&mut seat.place, 0, Some(value));
        let None = left else { unreachable!() };
        shared.fetch_add::<Advance<T>>(&mut seat.place, 1, 1);
        shared.wake_all(1);
    }

    /// Cuts off a seat, with the least spare number. It has seen what this one has, and none of that is its own. It takes no memory.
    ///
    /// # Errors
    ///
    /// `SeatsFull` exactly where the seat has no spare number.
    pub fn split_seat(&self, seat: &mut Seat<T>) -> Result<Seat<T>, SplitRefused>
        requires seat { IsSeatOf self.now seat.old × IsFree seat.old }
        ensures full { IsErr result ↔ (spare_numbers seat.old ≡ []) }
        ensures refused { IfErr result (λ _. seat.new ≡ seat.old) }
        ensures spare { IfOk result (λ r. (spare_numbers seat.old ≡ number r ∷ spare_numbers seat.new) × (spares seat.old ≡ spares seat.new + 1)) }
        ensures least { IfOk result (λ r. All (λ k. number r < k) (spare_numbers seat.new)) }
        ensures new { IfOk result (λ r. IsSeatOf self.now r × IsFree r × (numbers r ≡ number r ∷ []) × (spare_numbers r ≡ [])) }
        ensures seen { IfOk result (λ r. seen r ≡ seen seat.old) }
        ensures fresh { IfOk result (λ r. own_entries T.bears (numbers r) (seen r) ≡ []) }
        ensures same { IfOk result (λ _. IsSeatOf self.now seat.new × IsFree seat.new × (number seat.new ≡ number seat.old) × (numbers seat.new ≡ numbers seat.old) × (seen seat.new ≡ seen seat.old)) }
    {
        if seat.spare == 0 {
            return Err(SplitRefused::SeatsFull);
        }
        let number = seat.least as u64;
        let shared = &self.table.shared;
        shared.load::<Unborne<T>>(&mut seat.place, 0);
        let place = shared.split_seat::<Cut>(&mut seat.place);
        seat.least += 1;
        seat.spare -= 1;
        Ok(Seat {
            place,
            number,
            least: 0,
            spare: 0,
        })
    }

    /// Takes in another seat, with its numbers and all that it has seen. The seat has then seen the longer of the two lists, which the
    /// other one begins. It takes no memory.
    pub fn join_seat(&self, seat: &mut Seat<T>, other: Seat<T>)
        requires seat { IsSeatOf self.now seat.old × IsFree seat.old }
        requires other { IsSeatOf self.now other × IsFree other }
        ensures seat { IsSeatOf self.now seat.new × IsFree seat.new × (number seat.new ≡ number seat.old) }
        ensures numbers { numbers seat.new ≡ numbers seat.old ++ numbers other }
        ensures spare { spare_numbers seat.new ≡ spare_numbers seat.old ++ spare_numbers other }
        ensures seen { Longer T.bears (part_of seat.old) (part_of other) (seen seat.new) }
        ensures own { own_entries T.bears (numbers seat.old) (seen seat.new) ≡ own_entries T.bears (numbers seat.old) (seen seat.old) }
        ensures theirs { own_entries T.bears (numbers other) (seen seat.new) ≡ own_entries T.bears (numbers other) (seen other) }
    {
        let Seat {
            place,
            number: _,
            least,
            spare,
        } = other;
        let shared = &self.table.shared;
        shared.join_seat::<Both>(&mut seat.place, place);
        shared.load::<Settle<T>>(&mut seat.place, 0);
        if seat.spare == 0 {
            seat.least = least;
            seat.spare = spare;
        }
    }

    /// Ends the desk, and gives the value to the seat that has every number. Each entry is the seat's own, and the seat has seen them all.
    pub fn close(self, seat: Seat<T>) -> T
        requires seat { IsSeatOf self seat × IsFree seat × HasAll self seat }
        ensures name { T.named result ≡ desk_name T.named self }
        ensures seen { T.entries result ≡ seen seat }
        ensures own { All (λ e. 0 < times (T.bears e) (numbers seat)) (T.entries result) }
        ensures borne { All (λ e. T.bears e < seats_of self) (T.entries result) }
    {
        let Desk { table } = self;
        let Seat {
            place,
            number: _,
            least: _,
            spare: _,
        } = seat;
        let mut closed = table.close_with(place);
        let value = closed.take(0);
        closed.free();
        value.unwrap()
    }
}
