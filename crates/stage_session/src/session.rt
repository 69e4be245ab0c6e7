ghost use Rattle.std.specs.Prelude.{◌≡◌, ◌<◌, ◌≤◌, ◌∷◌, [], length, Err, IfOk, OnErr};
ghost use Rattle.stage_questions.specs.Replies.{published_text};
ghost use Rattle.stage_session.specs.Publishing.{Publishes};
ghost use Rattle.stage_session.specs.Sessions.{after_batch, after_publish, batch_reply, most_paths, next_stage, opening, opening_of, opening_text, publish_reply, question_reply, stage_after};

use asset_names::AssetId;
use change_core::{Core, Items};
use compose_api::StageRefused;
use edit_batches::{Batch, Op};
use layer_set::{Held, World};
use plain_data::copy;
use sdf_paths::Path;
use stage_composer::UsdComposer;
use stage_entries::StageEntry;
use stage_publish::Edition;
use stage_questions::{Question, push_answer, push_edit_reply, push_publish_reply};
use std::alloc::{AllocError, Global};
use std::marker::Model;
use std::mem;

/// As many paths as a stage has at most, `/` among them.
pub const MAX_PATHS: usize = 262_144;

/// A session: the world that was opened with the history of its calls, and the stage that was published last.
///
/// Contracts see it as plain data. After want of memory it is of no use any more.
#[derive(Drop)]
pub struct Session {
    alloc: Global,
    root: AssetId,
    core: Core<UsdComposer>,
    shown: Edition<Path, StageEntry>,
}

impl Model for Session {
    ghost use Rattle.std.specs.Prelude.{◌≡◌};
    ghost use Rattle.std.specs.Coded.{codes};
    ghost use Rattle.edit_batches.specs.contracts.op.Op as of_op;
    ghost use Rattle.layer_set.specs.contracts.world.World as of_world;
    ghost use Rattle.prim_view.specs.contracts.view.PrimView as of_view;
    ghost use Rattle.sdf_values.specs.contracts.value.Value as of_value;
    ghost use Rattle.stage_session.specs.Sessions.{Session};

    ghost Value = { Session };

    ghost coded = { Prim.hlevel (codes, of_world.the_row.coded, of_op.the_row.coded, of_value.the_row.coded, of_view.the_row.coded) };

    ghost view = { λ s. record { opened = s.core.opened; history = s.core.history; stage = s.shown.items } };

    ghost invariant = { λ s. s.root ≡ s.core.opened.root };
}

/// Publishes the stage of a core's world.
fn publish_core(core: &mut Core<UsdComposer>) -> Result<Items<UsdComposer>, StageRefused>
    ensures published { IfOk result (λ e. Publishes core.old core.new e.version e.batches e.items) }
    ensures few { IfOk result (λ e. length e.items ≤ most_paths) }
    ensures full { result ≡ Err StageRefused.Full → most_paths < length (stage_after core.old.opened core.old.history) }
    ensures refused { OnErr result (core.new ≡ core.old) }
{
    let edition = core.publish_within(0, MAX_PATHS)?;
    Ok(edition)
}

/// The batch of one operation.
fn batch_of_one(alloc: Global, op: Op) -> Result<Batch, AllocError>
    ensures { IfOk result (λ batch. batch ≡ op ∷ []) }
{
    let mut ops = plain_data::Items::new(alloc);
    ops.push(op)?;
    match Batch::of(ops) {
        Some(batch) => Ok(batch),
        None => unreachable!(),
    }
}

/// The edition of what a core published, and the reply to the publish. The edition that was shown before may be told.
fn show(
    alloc: Global,
    published: Items<UsdComposer>,
    before: Option<&Edition<Path, StageEntry>>,
) -> Result<(Edition<Path, StageEntry>, Vec<u8>), AllocError>
    ensures edition { IfOk result (λ x. x.0.items ≡ published.items) }
    ensures reply { IfOk result (λ x. x.1.items ≡ published_text published.version published.batches (length published.items)) }
{
    let Items {
        version,
        batches,
        items,
    } = published;
    let mut reply = Vec::new(alloc);
    push_publish_reply(alloc, &mut reply, version, batches, items.len())?;
    let shown = Edition::build(alloc, version, batches, items, before)?;
    Ok((shown, reply))
}

impl Session {
    /// A session on a world that was opened. Version 0 of its stage is published, with the reply that is answered too.
    ///
    /// # Errors
    ///
    /// `Full` exactly where the stage has more than `MAX_PATHS` paths. `NoMemory` where memory ran out.
    pub fn open(alloc: Global, world: World) -> Result<(Session, Vec<u8>), StageRefused>
        ensures session { IfOk result (λ x. x.0 ≡ opening world) }
        ensures reply { IfOk result (λ x. x.1.items ≡ opening_text world) }
        ensures few { IfOk result (λ x. length (stage_after world []) ≤ most_paths) }
        ensures full { result ≡ Err StageRefused.Full → most_paths < length (stage_after world []) }
    {
        let root = match copy(world.root()) {
            Ok(root) => root,
            Err(_) => {
                drop(world);
                return Err(StageRefused::NoMemory);
            }
        };
        let mut core = Core::new(alloc, UsdComposer::new(alloc), world, 1)?;
        let published = match publish_core(&mut core) {
            Ok(published) => published,
            Err(refused) => {
                drop((root, core));
                return Err(refused);
            }
        };
        let (shown, reply) = match show(alloc, published, None) {
            Ok(shown) => shown,
            Err(_) => {
                drop((root, core));
                return Err(StageRefused::NoMemory);
            }
        };
        let session = Session {
            alloc,
            root,
            core,
            shown,
        };
        Ok((session, reply))
    }

    /// Tries a batch, and answers its reply.
    ///
    /// # Errors
    ///
    /// Memory ran out.
    pub fn edit(&mut self, batch: Batch) -> Result<Vec<u8>, AllocError>
        ensures reply { IfOk result (λ text. text.items ≡ batch_reply self.old batch) }
        ensures after { IfOk result (λ _. self.new ≡ after_batch self.old batch) }
    {
        let reply = self.core.edit(0, batch)?;
        let mut text = Vec::new(self.alloc);
        push_edit_reply(self.alloc, &mut text, &reply)?;
        Ok(text)
    }

    /// Tries the batch of one operation that puts what stands at a name of a layer, and answers its reply.
    ///
    /// # Errors
    ///
    /// Memory ran out.
    pub fn put_layer(&mut self, id: AssetId, held: Held) -> Result<Vec<u8>, AllocError>
        ensures reply { IfOk result (λ text. text.items ≡ batch_reply self.old (opening_of id held)) }
        ensures after { IfOk result (λ _. self.new ≡ after_batch self.old (opening_of id held)) }
    {
        let batch = batch_of_one(self.alloc, Op::PutLayer { id, held })?;
        self.edit(batch)
    }

    /// Publishes the stage, shows it from then on, and answers the reply.
    ///
    /// # Errors
    ///
    /// `Full` exactly where the stage has more than `MAX_PATHS` paths; then nothing was published. `NoMemory` where memory ran out.
    pub fn publish(&mut self) -> Result<Vec<u8>, StageRefused>
        ensures reply { IfOk result (λ text. text.items ≡ publish_reply self.old) }
        ensures after { IfOk result (λ _. self.new ≡ after_publish self.old) }
        ensures few { IfOk result (λ _. length (next_stage self.old) ≤ most_paths) }
        ensures full { result ≡ Err StageRefused.Full → most_paths < length (next_stage self.old) }
        ensures unpublished { result ≡ Err StageRefused.Full → self.new ≡ self.old }
    {
        let published = publish_core(&mut self.core)?;
        let (shown, reply) = show(self.alloc, published, Some(&self.shown))?;
        drop(mem::replace(&mut self.shown, shown));
        Ok(reply)
    }

    /// Answers a question on the stage that was published last.
    ///
    /// # Errors
    ///
    /// Memory ran out.
    pub fn answer(&self, question: &Question) -> Result<Vec<u8>, AllocError>
        ensures { IfOk result (λ text. text.items ≡ question_reply self.now question.now) }
    {
        let mut text = Vec::new(self.alloc);
        push_answer(
            self.alloc,
            &mut text,
            &self.root,
            &self.shown.view(),
            question,
        )?;
        Ok(text)
    }
}
