//! The core: its calls keep a legal history and the world after it.

ghost use Rattle.std.specs.Prelude.{◌≡◌, [], ◌<◌, ◌≤◌, ◌+◌, length, Ok, Err, IfOk, IfErr, OnErr};
ghost use Rattle.compose_api.specs.Refusals.{IfOp};
ghost use Rattle.compose_api.specs.Stage.{stage_of};
ghost use Rattle.change_core.specs.History.{edit_count, batch_count};

use crate::cache::Cache;
use crate::history::{EditReply, HistoryEntry, MAX_EDITS};
use crate::publish::{Items, PublishReply};
use compose_api::{ApplyRefused, Composer, StageRefused};
use plain_data::copy;
use std::alloc::{AllocError, Global};
use std::marker::Model;
use std::mem::replace;
use std::snapshot::Snapshot;

/// A world with the history of all calls on it.
#[derive(Drop)]
pub struct Core<C: Composer> {
    alloc: Global,
    composer: C,
    world: C::World,
    cache: Cache<C>,
    opened: Snapshot<C::World>,
    history: plain_data::Items<HistoryEntry<C::Batch, C::Fault>>,
    edits: usize,
    batches: u64,
    versions: u64,
}

impl<C: Composer> Model for Core<C> {
    ghost use Rattle.std.specs.Prelude.{◌≡◌};
    ghost use Rattle.change_core.specs.Cores.{Session};
    ghost use Rattle.change_core.specs.History.{IsKept};

    ghost Value = { Session C.World C.Batch C.Fault };

    ghost view = { λ core. record { opened = core.opened.value; history = core.history } };

    ghost invariant = { λ core. IsKept C.applied core.opened.value core.world core.history core.edits core.batches core.versions × (core.cache ≡ core.world) };
}

impl<C: Composer> Core<C> {
    ghost use Rattle.change_core.specs.Cores.{AnswersEdit, NotesEdit, world_of};
    ghost use Rattle.change_core.specs.Publishes.{NotesPublish};

    /// A core on a world that was just opened, with an empty history. `_flights` is how many places it may compose at the same time, at
    /// least one; this core composes one after the other.
    pub fn new(
        alloc: Global,
        composer: C,
        world: C::World,
        _flights: u32,
    ) -> Result<Core<C>, AllocError>
        requires { 0 < _flights }
        ensures world { IfOk result (λ core. core.opened ≡ world) }
        ensures empty { IfOk result (λ core. core.history ≡ []) }
    {
        let opened = Snapshot::of(&world);
        let cache = Cache::new(alloc, &world);
        Ok(Core {
            alloc,
            composer,
            world,
            cache,
            opened,
            history: plain_data::Items::new(alloc),
            edits: 0,
            batches: 0,
            versions: 0,
        })
    }

    /// Tries a batch: it is accepted, or refused whole, and noted with this seat and its reply.
    /// A core whose history has 65,536 edit calls notes no more. After want of memory all is as before.
    pub fn edit(&mut self, seat: u64, batch: C::Batch) -> Result<EditReply<C::Fault>, AllocError>
        ensures answer { IfOk result (λ reply. AnswersEdit C.applied self.old self.new seat batch reply) }
        // That the history is full is told before memory is asked for.
        ensures full { edit_count self.old.history ≡ 65536 → result ≡ Ok EditReply.JournalFull }
        ensures refused { OnErr result (self.new ≡ self.old) }
    {
        if self.edits == MAX_EDITS {
            return Ok(EditReply::JournalFull);
        }
        match self.after_batch(&batch) {
            Ok((world, cache)) => self.note_accepted(seat, batch, world, cache),
            Err(ApplyRefused::Op { op, fault }) => self.note_refused(seat, batch, op, fault),
            Err(ApplyRefused::NoMemory) => Err(AllocError),
        }
    }

    /// The world after a batch with what is kept for it, or the first operation that is refused. The core itself keeps nothing of an
    /// accepted batch, and all of a refused one.
    fn after_batch(
        &mut self,
        batch: &C::Batch,
    ) -> Result<(C::World, Cache<C>), ApplyRefused<C::Fault>>
        ensures ok { IfOk result (λ after. C.applied (world_of C.applied self.old) batch.now ≡ Ok after.0) }
        ensures cache { IfOk result (λ after. after.1 ≡ after.0) }
        ensures refused { IfErr result (λ e. IfOp e (λ op fault. C.applied (world_of C.applied self.old) batch.now ≡ Err (op, fault))) }
        ensures same { self.new ≡ self.old }
    {
        let mut cache = replace(&mut self.cache, Cache::new(self.alloc, &self.world));
        match cache.apply(self.alloc, &self.composer, &self.world, batch) {
            Ok(after) => Ok((after, cache)),
            Err(refused) => {
                drop(replace(&mut self.cache, cache));
                Err(refused)
            }
        }
    }

    /// Notes an accepted batch, after which the world is this one, and what is kept is this.
    fn note_accepted(
        &mut self,
        seat: u64,
        batch: C::Batch,
        after: C::World,
        cache: Cache<C>,
    ) -> Result<EditReply<C::Fault>, AllocError>
        requires room { edit_count self.old.history < 65536 }
        requires after { C.applied (world_of C.applied self.old) batch ≡ Ok after }
        requires cache { cache ≡ after }
        ensures answer { IfOk result (λ reply. NotesEdit C.applied self.old self.new seat batch reply) }
        ensures kind { IfOk result (λ reply. reply ≡ EditReply.Accepted (batch_count self.old.history + 1)) }
        ensures refused { OnErr result (self.new ≡ self.old) }
    {
        let number = self.batches + 1;
        self.history.push(HistoryEntry::Edit {
            seat,
            batch,
            reply: EditReply::Accepted { number },
        })?;
        self.cache = cache;
        self.world = after;
        self.batches = number;
        self.edits += 1;
        Ok(EditReply::Accepted { number })
    }

    /// Notes a refused batch.
    fn note_refused(
        &mut self,
        seat: u64,
        batch: C::Batch,
        op: u32,
        fault: C::Fault,
    ) -> Result<EditReply<C::Fault>, AllocError>
        requires room { edit_count self.old.history < 65536 }
        requires fault { C.applied (world_of C.applied self.old) batch ≡ Err (op, fault) }
        ensures answer { IfOk result (λ reply. NotesEdit C.applied self.old self.new seat batch reply) }
        ensures kind { IfOk result (λ reply. reply ≡ EditReply.Refused op fault) }
        ensures refused { OnErr result (self.new ≡ self.old) }
    {
        let noted = copy(&fault)?;
        self.history.push(HistoryEntry::Edit {
            seat,
            batch,
            reply: EditReply::Refused { op, fault: noted },
        })?;
        self.edits += 1;
        Ok(EditReply::Refused { op, fault })
    }

    /// Composes the stage of the world, as far as what is kept of the one before does not hold any more, notes the publish with this seat, and hands the stage out.
    /// Versions are counted from 0. After want of memory all is as before.
    pub fn publish(&mut self, seat: u64) -> Result<PublishReply<C>, AllocError>
        ensures answer { IfOk result (λ reply. (edition : _) × (reply ≡ PublishReply.Published edition) × NotesPublish ⟦<C as Composer>⟧ self.old self.new seat edition.version edition.batches edition.items) }
        ensures refused { OnErr result (self.new ≡ self.old) }
    {
        let items = self.stage()?;
        let edition = self.note_published(seat, items)?;
        Ok(PublishReply::Published { edition })
    }

    /// The stage of the world.
    fn stage(&mut self) -> Result<plain_data::Items<(C::Place, C::Entry)>, AllocError>
        ensures stage { IfOk result (λ items. items ≡ stage_of C.entry_of C.listed (world_of C.applied self.old) C.root_place) }
        ensures same { self.new ≡ self.old }
    {
        match self
            .cache
            .stage_within(self.alloc, &self.composer, &self.world, usize::MAX)
        {
            Ok(items) => Ok(items),
            Err(_) => Err(AllocError),
        }
    }

    /// The same for a stage of so many places at most. After a refusal all is as before.
    ///
    /// # Errors
    ///
    /// `Full` exactly where the stage has more places. `NoMemory` where memory ran out.
    pub fn publish_within(&mut self, seat: u64, most: usize) -> Result<Items<C>, StageRefused>
        ensures answer { IfOk result (λ edition. NotesPublish ⟦<C as Composer>⟧ self.old self.new seat edition.version edition.batches edition.items) }
        ensures few { IfOk result (λ edition. length edition.items ≤ most) }
        ensures full { result ≡ Err StageRefused.Full → most < length (stage_of C.entry_of C.listed (world_of C.applied self.old) C.root_place) }
        ensures refused { OnErr result (self.new ≡ self.old) }
    {
        let items = self
            .cache
            .stage_within(self.alloc, &self.composer, &self.world, most)?;
        let edition = self.note_published(seat, items)?;
        Ok(edition)
    }

    /// Notes the publish of the stage of the world.
    fn note_published(
        &mut self,
        seat: u64,
        items: plain_data::Items<(C::Place, C::Entry)>,
    ) -> Result<Items<C>, AllocError>
        requires { items ≡ stage_of C.entry_of C.listed (world_of C.applied self.old) C.root_place }
        ensures answer { IfOk result (λ edition. NotesPublish ⟦<C as Composer>⟧ self.old self.new seat edition.version edition.batches edition.items) }
        ensures items { IfOk result (λ edition. edition.items ≡ items) }
        ensures refused { OnErr result (self.new ≡ self.old) }
    {
        let version = self.versions;
        let batches = self.batches;
        self.history.push(HistoryEntry::Publish {
            seat,
            version,
            batches,
        })?;
        let _room = self.history.len();
        self.versions = version + 1;
        Ok(Items {
            version,
            batches,
            items,
        })
    }
}
