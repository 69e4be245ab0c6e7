//! All that the program does.

ghost use Rattle.std.specs.Prelude.{◌≡◌, ◌≢◌, ◌≤◌, ◌++◌, ◌⊎◌, ℕ, List, [], map, length, Ok, Err, Some, None, false, IfSome, IfOk, IfErr, string_bytes};
ghost use Rattle.std.specs.Io.KnownBytes.{Appends};
ghost use Rattle.io_edges.specs.Causes.{IsCounted, Rose};
ghost use Rattle.io_edges.specs.Stores.{file_named};
ghost use Rattle.layer_load.specs.Asking.{AsksMet};
ghost use Rattle.layer_load.specs.Files.{AreRead, taken_at};
ghost use Rattle.session_script.specs.Told.{BothTold};
ghost use Rattle.session_script.specs.Reading.{steps_of};
ghost use Rattle.stage_session.specs.Sessions.{most_paths, opening, opening_text, stage_after};
ghost use Rattle.usdstage.specs.Command.{command_of};
ghost use Rattle.usdstage.specs.Course.{unopened, turn, flat_course, session_course, carried, course};
ghost use Rattle.usdstage.specs.Outcome.{AreCounted, ByFiles, Carries, EndsAsDue, EndsWith, IsScript, RepliesToLines, Takes};
ghost use Rattle.usdstage.specs.declared.words.Verb.TheVariants as verbs;

use crate::output::{Written, write_all};
use crate::status::Status;
use crate::words::{Command, Verb, command_of};
use asset_names::AssetId;
use compose_api::StageRefused;
use edit_batches::Batch;
use io_edges::{FreeGate, Gate, LayerFiles, Sink, Source, SureFiles, SureSink, SureSource};
use layer_load::{LoadFault, Loaded, load_one, load_world};
use layer_set::World;
use session_script::{Script, ScriptFault, Step};
use stage_questions::Question;
use stage_session::{Session, flatten_world};
use std::alloc::Global;
use usda_reader::texts_have_one_answer;

/// How a run ends whose world was not opened.
fn unopened(fault: LoadFault) -> Status
    ensures value { result ≡ unopened fault }
    ensures calm { (result ≢ Status.WriteFault) × (result ≢ Status.Done) × (result ≢ Status.Usage) }
{
    match fault {
        LoadFault::ReadFault => Status::ReadFault,
        LoadFault::RootRefused { name, refusal } => Status::RootRefused { name, refusal },
        LoadFault::WorldTooLarge => Status::WorldTooLarge,
        LoadFault::NoMemory => Status::NoMemory,
    }
}

/// Writes the text of the flattened layer.
fn write_flat<K: Sink>(alloc: Global, world: &World, out: &mut K) -> Status
    ensures outcome { EndsWith (flat_course world.now) result (K.taken out.old) (K.taken out.new) }
    ensures writes { IsCounted (result ≡ Status.WriteFault) (K.faults out.old) (K.faults out.new) }
    ensures calm { result ≢ Status.ReadFault }
    ensures kinds { result ≢ Status.Usage }
{
    let text = match flatten_world(alloc, world) {
        Ok(text) => text,
        Err(StageRefused::Full) => return Status::StageFull,
        Err(StageRefused::NoMemory) => return Status::NoMemory,
    };
    match write_all(out, &text) {
        Written::Whole => Status::Done,
        Written::Failed => Status::WriteFault,
        Written::NoMemory => Status::NoMemory,
    }
}

/// Puts the layer of a name as its file gives it: the reply, and the bytes fetched by then.
fn open_layer<F: LayerFiles>(
    alloc: Global,
    session: &mut Session,
    bytes: u64,
    id: AssetId,
    files: &mut F,
) -> Result<(Vec<u8>, u64), Status>
    ensures turn { ByFiles (F.files files.old) (λ held size. Takes (λ v. v.items) result session.new (turn held size session.old bytes (Step.OpenLayer id))) }
    ensures same { F.files files.new ≡ F.files files.old }
    ensures counted { IsCounted (result ≡ Err Status.ReadFault) (F.faults files.old) (F.faults files.new) }
    ensures calm { (result ≢ Err Status.WriteFault) × (result ≢ Err Status.Done) × (result ≢ Err Status.Usage) }
{
    texts_have_one_answer();
    match load_one(alloc, files, &id, bytes) {
        Ok((held, total)) => match session.put_layer(id, held) {
            Ok(reply) => Ok((reply, total)),
            Err(_) => Err(Status::NoMemory),
        },
        Err(fault) => {
            drop(id);
            Err(unopened(fault))
        }
    }
}

/// The reply to a batch.
#[tactic(auto, unfolding(crate::specs::Course::turn))]
fn edit(session: &mut Session, bytes: u64, batch: Batch) -> Result<(Vec<u8>, u64), Status>
    ensures turn { (held : _) (size : _) → Takes (λ v. v.items) result session.new (turn held size session.old bytes (Step.Batch batch)) }
    ensures calm { (result ≢ Err Status.ReadFault) × (result ≢ Err Status.WriteFault) × (result ≢ Err Status.Done) × (result ≢ Err Status.Usage) }
{
    match session.edit(batch) {
        Ok(reply) => Ok((reply, bytes)),
        Err(_) => Err(Status::NoMemory),
    }
}

/// The reply to a publish.
fn publish(session: &mut Session, bytes: u64) -> Result<(Vec<u8>, u64), Status>
    ensures turn { (held : _) (size : _) → Takes (λ v. v.items) result session.new (turn held size session.old bytes Step.Publish) }
    ensures calm { (result ≢ Err Status.ReadFault) × (result ≢ Err Status.WriteFault) × (result ≢ Err Status.Done) × (result ≢ Err Status.Usage) }
{
    match session.publish() {
        Ok(reply) => Ok((reply, bytes)),
        Err(StageRefused::Full) => Err(Status::StageFull),
        Err(StageRefused::NoMemory) => Err(Status::NoMemory),
    }
}

/// The reply to a question.
#[tactic(auto, unfolding(crate::specs::Course::turn))]
fn answer(session: &Session, bytes: u64, question: &Question) -> Result<(Vec<u8>, u64), Status>
    ensures turn { (held : _) (size : _) → Takes (λ v. v.items) result session.now (turn held size session.now bytes (Step.Ask question.now)) }
    ensures calm { (result ≢ Err Status.ReadFault) × (result ≢ Err Status.WriteFault) × (result ≢ Err Status.Done) × (result ≢ Err Status.Usage) }
{
    match session.answer(question) {
        Ok(reply) => Ok((reply, bytes)),
        Err(_) => Err(Status::NoMemory),
    }
}

/// The reply to a step, and the bytes fetched by then, or how the run ends without one.
fn reply_to<F: LayerFiles>(
    alloc: Global,
    session: &mut Session,
    bytes: u64,
    step: Step,
    files: &mut F,
) -> Result<(Vec<u8>, u64), Status>
    ensures turn { ByFiles (F.files files.old) (λ held size. Takes (λ v. v.items) result session.new (turn held size session.old bytes step)) }
    ensures same { F.files files.new ≡ F.files files.old }
    ensures counted { IsCounted (result ≡ Err Status.ReadFault) (F.faults files.old) (F.faults files.new) }
    ensures calm { (result ≢ Err Status.WriteFault) × (result ≢ Err Status.Done) × (result ≢ Err Status.Usage) }
{
    match step {
        Step::Batch(batch) => edit(session, bytes, batch),
        Step::OpenLayer(id) => open_layer(alloc, session, bytes, id, files),
        Step::Publish => publish(session, bytes),
        Step::Ask(question) => {
            let replied = answer(session, bytes, &question);
            drop(question);
            replied
        }
    }
}

/// Carries out a step of a session, and writes its reply; the bytes fetched by then, or how the run ends.
fn carry_out<F: LayerFiles, K: Sink>(
    alloc: Global,
    session: &mut Session,
    bytes: u64,
    step: Step,
    files: &mut F,
    out: &mut K,
) -> Result<u64, Status>
    ensures carried { ByFiles (F.files files.old) (λ held size. Carries result session.new (turn held size session.old bytes step) (K.taken out.old) (K.taken out.new)) }
    ensures same { F.files files.new ≡ F.files files.old }
    ensures reads { IsCounted (result ≡ Err Status.ReadFault) (F.faults files.old) (F.faults files.new) }
    ensures writes { IsCounted (result ≡ Err Status.WriteFault) (K.faults out.old) (K.faults out.new) }
    ensures calm { (result ≢ Err Status.Done) × (result ≢ Err Status.Usage) }
{
    let (reply, total) = match reply_to(alloc, session, bytes, step, files) {
        Ok(replied) => replied,
        Err(status) => return Err(status),
    };
    match write_all(out, &reply) {
        Written::Whole => Ok(total),
        Written::Failed => Err(Status::WriteFault),
        Written::NoMemory => Err(Status::NoMemory),
    }
}

/// Carries out the steps of a script of which nothing was read, each with its reply before the next is read.
fn run_steps<F: LayerFiles, S: Source, K: Sink>(
    alloc: Global,
    session: &mut Session,
    bytes: u64,
    steps: &mut Script,
    files: &mut F,
    script: &mut S,
    out: &mut K,
) -> Status
    requires { steps.old ≡ record { taken = 0; held = []; ended = false; lines = 0; batch = None; line = 0; stopped = None } }
    ensures outcome { ByFiles (F.files files.old) (λ held size. IfSome (S.left script.old) (λ all. EndsWith (carried held size session.old bytes (steps_of all)) result (K.taken out.old) (K.taken out.new))) }
    ensures end { result ≡ Status.Done → BothTold (S.left script.old) (S.left script.new) (λ _ b. b ≡ []) }
    ensures reads { AreCounted (result ≡ Status.ReadFault) (F.faults files.old) (F.faults files.new) (S.faults script.old) (S.faults script.new) }
    ensures script_fault { result ≡ Status.ReadFault → (Rose (F.faults files.old) (F.faults files.new) → ⊥) → ByFiles (F.files files.old) (λ held size. BothTold (S.left script.old) (S.left script.new)
        (λ all left. RepliesToLines (λ lines. carried held size session.old bytes (steps_of lines)) all left (K.taken out.old) (K.taken out.new))) }
    ensures writes { IsCounted (result ≡ Status.WriteFault) (K.faults out.old) (K.faults out.new) }
    ensures kinds { result ≢ Status.Usage }
{
    let mut bytes = bytes;
    loop {
        match steps.next(script) {
            Ok(None) => return Status::Done,
            Ok(Some(step)) => match carry_out(alloc, session, bytes, step, files, out) {
                Ok(total) => bytes = total,
                Err(status) => return status,
            },
            Err(ScriptFault::Refused { line, kind }) => {
                return Status::ScriptRefused { line, kind };
            }
            Err(ScriptFault::ReadFault) => return Status::ReadFault,
            Err(ScriptFault::NoMemory) => return Status::NoMemory,
        }
    }
}

/// Carries out the steps of a script on a session, which ends with them.
fn run_script<F: LayerFiles, S: Source, K: Sink>(
    alloc: Global,
    session: Session,
    bytes: u64,
    files: &mut F,
    script: &mut S,
    out: &mut K,
) -> Status
    ensures outcome { ByFiles (F.files files.old) (λ held size. IfSome (S.left script.old) (λ all. EndsWith (carried held size session bytes (steps_of all)) result (K.taken out.old) (K.taken out.new))) }
    ensures end { result ≡ Status.Done → BothTold (S.left script.old) (S.left script.new) (λ _ b. b ≡ []) }
    ensures reads { AreCounted (result ≡ Status.ReadFault) (F.faults files.old) (F.faults files.new) (S.faults script.old) (S.faults script.new) }
    ensures script_fault { result ≡ Status.ReadFault → (Rose (F.faults files.old) (F.faults files.new) → ⊥) → ByFiles (F.files files.old) (λ held size. BothTold (S.left script.old) (S.left script.new)
        (λ all left. RepliesToLines (λ lines. carried held size session bytes (steps_of lines)) all left (K.taken out.old) (K.taken out.new))) }
    ensures writes { IsCounted (result ≡ Status.WriteFault) (K.faults out.old) (K.faults out.new) }
    ensures kinds { result ≢ Status.Usage }
{
    let mut session = session;
    let mut steps = Script::new(alloc);
    let status = run_steps(alloc, &mut session, bytes, &mut steps, files, script, out);
    drop((session, steps));
    status
}

/// Opens a session on a world, and writes the reply to the opening.
fn open_session<K: Sink>(alloc: Global, world: World, out: &mut K) -> Result<Session, Status>
    ensures opened { IfOk result (λ session. (session ≡ opening world) × Appends (K.taken out.old) (K.taken out.new) (opening_text world)) }
    ensures few { IfOk result (λ _. length (stage_after world []) ≤ most_paths) }
    ensures outcome { (bytes : ℕ) (held : _) (size : _) (script : List ℕ) → IfErr result (λ status. EndsWith (session_course held size world bytes script) status (K.taken out.old) (K.taken out.new)) }
    ensures counted { IsCounted (result ≡ Err Status.WriteFault) (K.faults out.old) (K.faults out.new) }
    ensures calm { (result ≢ Err Status.ReadFault) × (result ≢ Err Status.Done) × (result ≢ Err Status.Usage) }
{
    let (session, reply) = match Session::open(alloc, world) {
        Ok(opened) => opened,
        Err(StageRefused::Full) => return Err(Status::StageFull),
        Err(StageRefused::NoMemory) => return Err(Status::NoMemory),
    };
    match write_all(out, &reply) {
        Written::Whole => Ok(session),
        Written::Failed => {
            drop(session);
            Err(Status::WriteFault)
        }
        Written::NoMemory => {
            drop(session);
            Err(Status::NoMemory)
        }
    }
}

/// A session on a world for which so many bytes were fetched.
fn run_session<F: LayerFiles, S: Source, K: Sink>(
    alloc: Global,
    loaded: Loaded,
    files: &mut F,
    script: &mut S,
    out: &mut K,
) -> Status
    ensures outcome { ByFiles (F.files files.old) (λ held size. IfSome (S.left script.old) (λ all. EndsWith (session_course held size loaded.world loaded.bytes all) result (K.taken out.old) (K.taken out.new))) }
    ensures end { result ≡ Status.Done → BothTold (S.left script.old) (S.left script.new) (λ _ b. b ≡ []) }
    ensures reads { AreCounted (result ≡ Status.ReadFault) (F.faults files.old) (F.faults files.new) (S.faults script.old) (S.faults script.new) }
    ensures script_fault { result ≡ Status.ReadFault → (Rose (F.faults files.old) (F.faults files.new) → ⊥) → ByFiles (F.files files.old) (λ held size. BothTold (S.left script.old) (S.left script.new)
        (λ all left. RepliesToLines (λ lines. session_course held size loaded.world loaded.bytes lines) all left (K.taken out.old) (K.taken out.new))) }
    ensures writes { IsCounted (result ≡ Status.WriteFault) (K.faults out.old) (K.faults out.new) }
    ensures kinds { result ≢ Status.Usage }
{
    let Loaded { world, bytes } = loaded;
    match open_session(alloc, world, out) {
        Ok(session) => run_script(alloc, session, bytes, files, script, out),
        Err(status) => status,
    }
}

/// Carries out a command.
fn run_command<F: LayerFiles, S: Source, K: Sink>(
    alloc: Global,
    command: Command,
    files: &mut F,
    script: &mut S,
    out: &mut K,
) -> Status
    ensures outcome { ByFiles (F.files files.old) (λ held size. (s : List ℕ) → IsScript (Some command) (S.left script.old) s → EndsWith (course held size (Some command) s) result (K.taken out.old) (K.taken out.new)) }
    ensures unread { command.verb ≡ verbs.Flatten → script.new ≡ script.old }
    ensures asks { command.verb ≡ verbs.Flatten → IfSome (F.files files.old) (λ told. AsksMet told command.root command.session (F.asked files.old) (F.asked files.new)) }
    ensures end { command.verb ≡ verbs.Session → result ≡ Status.Done → BothTold (S.left script.old) (S.left script.new) (λ _ left. left ≡ []) }
    ensures reads { AreCounted (result ≡ Status.ReadFault) (F.faults files.old) (F.faults files.new) (S.faults script.old) (S.faults script.new) }
    ensures script_fault { result ≡ Status.ReadFault → (Rose (F.faults files.old) (F.faults files.new) → ⊥) → ByFiles (F.files files.old) (λ held size. BothTold (S.left script.old) (S.left script.new)
        (λ all left. RepliesToLines (λ lines. course held size (Some command) lines) all left (K.taken out.old) (K.taken out.new))) }
    ensures writes { IsCounted (result ≡ Status.WriteFault) (K.faults out.old) (K.faults out.new) }
    ensures kinds { result ≢ Status.Usage }
{
    let Command {
        verb,
        root,
        session,
    } = command;
    let loaded = match load_world(alloc, files, root, session) {
        Ok(loaded) => loaded,
        Err(fault) => return unopened(fault),
    };
    match verb {
        Verb::Flatten => {
            let status = write_flat(alloc, &loaded.world, out);
            drop(loaded);
            status
        }
        Verb::Session => run_session(alloc, loaded, files, script, out),
    }
}

/// Does what the words say, over these files, this script and this sink. The runtime and the gate are not used by now.
///
/// The reply to a line of the script is written whole before the next line is acted on, and the reply to the opening
/// before the script is first read.
pub fn run_tool<R, F: LayerFiles, S: Source, K: Sink, G: Gate + Sync>(
    _rt: &R,
    alloc: Global,
    words: &[String],
    files: &mut F,
    script: &mut S,
    out: &mut K,
    _gate: &G,
) -> Status
    // What is answered and written is the course of the run; at a fault or want of memory the front of what it writes was written.
    ensures outcome { ByFiles (F.files files.old) (λ held size. (s : List ℕ) → IsScript (command_of (map string_bytes words.now)) (S.left script.old) s
        → EndsWith (course held size (command_of (map string_bytes words.now)) s) result (K.taken out.old) (K.taken out.new)) }
    // `Usage` is answered where the words are no command, and only there.
    ensures usage { result ≡ Status.Usage → command_of (map string_bytes words.now) ≡ None }
    ensures no_command { command_of (map string_bytes words.now) ≡ None → (result ≡ Status.Usage) ⊎ (result ≡ Status.NoMemory) }
    // Words that are no command touch neither the files nor the script nor the sink.
    ensures untouched { command_of (map string_bytes words.now) ≡ None → (files.new ≡ files.old) × (script.new ≡ script.old) × (out.new ≡ out.old) }
    // `flatten` reads no script.
    ensures unread { IfSome (command_of (map string_bytes words.now)) (λ c. c.verb ≡ verbs.Flatten → script.new ≡ script.old) }
    // `flatten` asks for no file but those of the names that are met from its layers, and for each of these at most once.
    ensures asks { IfSome (command_of (map string_bytes words.now)) (λ c. c.verb ≡ verbs.Flatten
        → IfSome (F.files files.old) (λ told. AsksMet told c.root c.session (F.asked files.old) (F.asked files.new))) }
    // A session that is done has read its script to the end.
    ensures end { IfSome (command_of (map string_bytes words.now)) (λ c. c.verb ≡ verbs.Session → result ≡ Status.Done
        → BothTold (S.left script.old) (S.left script.new) (λ _ left. left ≡ [])) }
    // `ReadFault` is answered where one fetch or one read failed, and only there; the same of writes.
    ensures reads { AreCounted (result ≡ Status.ReadFault) (F.faults files.old) (F.faults files.new) (S.faults script.old) (S.faults script.new) }
    // Where reading the script fails, the replies to all whole lines that were read of it before were written.
    ensures script_fault { result ≡ Status.ReadFault → (Rose (F.faults files.old) (F.faults files.new) → ⊥) → ByFiles (F.files files.old) (λ held size. BothTold (S.left script.old) (S.left script.new)
        (λ all left. RepliesToLines (λ lines. course held size (command_of (map string_bytes words.now)) lines) all left (K.taken out.old) (K.taken out.new))) }
    ensures writes { IsCounted (result ≡ Status.WriteFault) (K.faults out.old) (K.faults out.new) }
    // Where nothing fails, the run ends as it is due by the words, the files and the script, unless memory runs out.
    ensures complete { ByFiles (F.files files.old) (λ held size. (s : List ℕ) → IsScript (command_of (map string_bytes words.now)) (S.left script.old) s
        → (Rose (F.faults files.old) (F.faults files.new) → ⊥) → (Rose (S.faults script.old) (S.faults script.new) → ⊥) → (Rose (K.faults out.old) (K.faults out.new) → ⊥)
        → EndsAsDue (course held size (command_of (map string_bytes words.now)) s) result) }
{
    match command_of(alloc, words) {
        Ok(Some(command)) => run_command(alloc, command, files, script, out),
        Ok(None) => Status::Usage,
        Err(_) => Status::NoMemory,
    }
}

/// The same over files, a script and a sink that never fail: then no fault is answered.
pub fn run_in_memory<R>(
    rt: &R,
    alloc: Global,
    words: &[String],
    files: &mut SureFiles,
    script: &mut SureSource,
    out: &mut SureSink,
) -> Status
    ensures no_read_fault { result ≢ Status.ReadFault }
    ensures no_write_fault { result ≢ Status.WriteFault }
    ensures ends { (held : _) → AreRead (file_named files.old) held
        → EndsAsDue (course held (taken_at (file_named files.old)) (command_of (map string_bytes words.now)) script.old.left) result }
    // Unless memory ran out, all of the course was written, also where the run ends early.
    ensures written { (held : _) → AreRead (file_named files.old) held → result ≢ Status.NoMemory
        → out.new.taken ≡ out.old.taken ++ (course held (taken_at (file_named files.old)) (command_of (map string_bytes words.now)) script.old.left).text }
{
    run_tool(rt, alloc, words, files, script, out, &FreeGate)
}
