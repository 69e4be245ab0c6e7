//! One layer from its file.
ghost use Rattle.std.specs.Prelude.{◌≡◌, ◌≢◌, ◌+◌, ◌<◌, ◌≤◌, Err, length, MatchResult};
ghost use Rattle.asset_names.specs.Anchoring.{kind_of};
ghost use Rattle.io_edges.specs.Causes.{IsCounted};
ghost use Rattle.io_edges.specs.Edges.{AsksAtMost};
ghost use Rattle.layer_set.specs.declared.held.Held.{Held as SaidHeld};
ghost use Rattle.layer_load.specs.Files.{Says, unread};
ghost use Rattle.layer_load.specs.Opening.{most_bytes};
ghost use Rattle.layer_load.specs.Answers.{AnswersWith, AnswersFile, AnswersOne};
ghost use Rattle.layer_load.specs.Asking.{AsksInTurn};

use crate::fault::LoadFault;
use asset_names::{AssetId, NameKind};
use io_edges::{Fetched, LayerFiles};
use layer_set::Held;
use spec_parts::{Refusal, RefusalKind};
use std::alloc::Global;
use usda_reader::{LayerFault, read_layer};

/// The most bytes that are fetched in all.
pub const MAX_FETCHED: u64 = 268_435_456;

/// The bytes in all, unless they are too many.
fn counted(before: u64, size: usize) -> Result<u64, LoadFault>
    ensures { MatchResult result (λ total. (total ≡ before + size) × (total ≤ most_bytes)) (λ e. (e ≡ LoadFault.WorldTooLarge) × (most_bytes < before + size)) }
{
    match before.checked_add(size as u64) {
        Some(total) => {
            if total <= MAX_FETCHED {
                Ok(total)
            } else {
                Err(LoadFault::WorldTooLarge)
            }
        }
        None => Err(LoadFault::WorldTooLarge),
    }
}

/// A layer of a kind that is not read.
fn unread(kind: RefusalKind, before: u64) -> Result<(Held, u64), LoadFault>
    ensures answers { AnswersWith (λ (h : SaidHeld). h ≡ unread kind) before 0 result }
    ensures calm { result ≡ Err LoadFault.ReadFault → ⊥ }
{
    let total = counted(before, 0)?;
    let refusal = Refusal {
        kind,
        line: 1,
        column: 1,
    };
    Ok((Held::Broken(refusal), total))
}

/// What the bytes of a file say.
fn read_fetched(alloc: Global, bytes: &[u8]) -> Result<Held, LoadFault>
    ensures { MatchResult result (Says bytes.now) (λ e. e ≡ LoadFault.NoMemory) }
{
    match read_layer(alloc, bytes) {
        Ok(layer) => Ok(Held::Present(layer)),
        Err(LayerFault::Refused(refusal)) => Ok(Held::Broken(refusal)),
        Err(LayerFault::NoMemory) => Err(LoadFault::NoMemory),
    }
}

/// The bytes in all, and then what the bytes of a file say.
fn read_counted(alloc: Global, bytes: &[u8], before: u64) -> Result<(Held, u64), LoadFault>
    ensures answers { AnswersWith (Says bytes.now) before (length bytes.now) result }
    ensures calm { result ≡ Err LoadFault.ReadFault → ⊥ }
{
    let total = counted(before, bytes.len())?;
    let held = read_fetched(alloc, bytes)?;
    Ok((held, total))
}

/// The layer that is absent.
fn absent(before: u64) -> Result<(Held, u64), LoadFault>
    ensures answers { AnswersWith (λ (h : SaidHeld). h ≡ Held.Absent) before 0 result }
    ensures calm { result ≡ Err LoadFault.ReadFault → ⊥ }
{
    let total = counted(before, 0)?;
    Ok((Held::Absent, total))
}

/// What the file of a name holds.
fn fetch_one<F: LayerFiles>(
    alloc: Global,
    files: &mut F,
    name: &str,
    before: u64,
) -> Result<(Held, u64), LoadFault>
    ensures file { AnswersFile (F.files files.old) name.now before result }
    ensures same { F.files files.new ≡ F.files files.old }
    ensures asks { AsksAtMost (F.asked files.old) (F.asked files.new) name.now }
    ensures counted { IsCounted (result ≡ Err LoadFault.ReadFault) (F.faults files.old) (F.faults files.new) }
{
    let mut bytes = Vec::new(alloc);
    match files.fetch(name, &mut bytes) {
        Fetched::Found => read_counted(alloc, &bytes, before),
        Fetched::Absent => absent(before),
        Fetched::Failed => Err(LoadFault::ReadFault),
        Fetched::NoMemory => Err(LoadFault::NoMemory),
    }
}

/// What stands at a name, and how many bytes were fetched in all: `before`, and those that this call fetched. A name of a binary layer or
/// of a package is not fetched.
///
/// # Errors
///
/// `ReadFault` where the file could not be read, `WorldTooLarge` where the bytes in all are more than `MAX_FETCHED`, `NoMemory` where
/// memory ran out.
pub fn load_one<F: LayerFiles>(
    alloc: Global,
    files: &mut F,
    id: &AssetId,
    before: u64,
) -> Result<(Held, u64), LoadFault>
    // What is answered is what the file of this name has, which is the one that is told; the root is not refused here.
    ensures answers { AnswersOne (F.files files.old) id.now before result }
    ensures same { F.files files.new ≡ F.files files.old }
    // No other name is asked for.
    ensures asks { AsksInTurn (F.asked files.old) (F.asked files.new) id.now }
    ensures unfetched { kind_of id.now ≢ NameKind.Plain → files.new ≡ files.old }
    // It is answered where a fetch failed, and only there: no fetch is tried again.
    ensures counted { IsCounted (result ≡ Err LoadFault.ReadFault) (F.faults files.old) (F.faults files.new) }
{
    match id.name_kind() {
        NameKind::Plain => fetch_one(alloc, files, id.text(), before),
        NameKind::Crate => unread(RefusalKind::Crate, before),
        NameKind::Package => unread(RefusalKind::Package, before),
    }
}
