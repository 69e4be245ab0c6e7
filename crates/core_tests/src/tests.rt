use crate::Toy;
use change_core::{Core, EditReply, PublishReply};
use compose_api::{StageRefused, stage_items};
use std::alloc::Global;
use std::test::Fail;

/// The version, the number of batches and the number of places of a stage.
fn told(reply: &PublishReply<Toy>) -> (u64, u64, usize) {
    match reply {
        PublishReply::Published { edition } => {
            (edition.version, edition.batches, edition.items.len())
        }
        PublishReply::NotClean { place } => (*place, 0, 0),
    }
}

/// Whether the stage that is published now has this version, after so many batches, and so many places.
fn publishes(core: &mut Core<Toy>, stage: (u64, u64, usize)) -> Result<bool, Fail> {
    Ok(told(&core.publish(0)?) == stage)
}

/// Whether the batch with this world is accepted as the one of this number.
fn accepts(core: &mut Core<Toy>, world: u64, number: u64) -> Result<bool, Fail> {
    match core.edit(0, Some(world))? {
        EditReply::Accepted { number: given } => Ok(given == number),
        _ => Ok(false),
    }
}

/// Whether the batch with no world is refused as it has to be.
fn refuses(core: &mut Core<Toy>) -> Result<bool, Fail> {
    Ok(matches!(core.edit(0, None)?, EditReply::Refused { op: 1, fault: 7 }))
}

#[test]
fn a_batch_counts_from_one_and_a_refused_one_changes_nothing(rt: HostRuntime) -> Result<(), Fail> {
    let mut core = Core::new(rt.alloc(), Toy { alloc: rt.alloc() }, 3, 1)?;
    assert!(rt;
        publishes(&mut core, (0, 0, 2))?
            && refuses(&mut core)?
            && publishes(&mut core, (1, 0, 2))?
            && accepts(&mut core, 0, 1)?
            && publishes(&mut core, (2, 1, 1))?
            && accepts(&mut core, 5, 2)?
            && publishes(&mut core, (3, 2, 2))?
    );
    Ok(())
}

/// Whether the stage that is published now is the one that is composed of this world from scratch.
fn is_composed(core: &mut Core<Toy>, alloc: Global, world: u64) -> Result<bool, Fail> {
    let composed = stage_items(alloc, &Toy { alloc }, &world)?;
    match core.publish(0)? {
        PublishReply::Published { edition } => Ok(edition.items == composed),
        PublishReply::NotClean { .. } => Ok(false),
    }
}

/// Whether a stage of more than one place is refused.
fn is_too_large(core: &mut Core<Toy>) -> bool {
    matches!(core.publish_within(0, 1), Err(StageRefused::Full))
}

#[test]
fn a_stage_that_is_kept_is_the_composed_one(rt: HostRuntime) -> Result<(), Fail> {
    let alloc = rt.alloc();
    let mut core = Core::new(alloc, Toy { alloc }, 3, 1)?;
    assert!(rt;
        is_composed(&mut core, alloc, 3)?
            && is_composed(&mut core, alloc, 3)?
            && accepts(&mut core, 3, 1)?
            && is_composed(&mut core, alloc, 3)?
            && accepts(&mut core, 0, 2)?
            && is_composed(&mut core, alloc, 0)?
            && accepts(&mut core, 9, 3)?
            && accepts(&mut core, 5, 4)?
            && is_too_large(&mut core)
            && is_composed(&mut core, alloc, 5)?
    );
    Ok(())
}

/// Whether the history has no room for a batch.
fn is_full(core: &mut Core<Toy>, world: u64) -> Result<bool, Fail> {
    Ok(matches!(core.edit(0, Some(world))?, EditReply::JournalFull))
}

/// Whether the history has room for so many batches, which are made.
fn has_room_for(core: &mut Core<Toy>, batches: u64) -> Result<bool, Fail> {
    for world in 0..batches {
        if is_full(core, world)? {
            return Ok(false);
        }
    }
    Ok(true)
}

#[test]
fn the_history_takes_65536_edit_calls(rt: HostRuntime) -> Result<(), Fail> {
    let mut core = Core::new(rt.alloc(), Toy { alloc: rt.alloc() }, 0, 1)?;
    assert!(rt;
        has_room_for(&mut core, 65_536)?
            && is_full(&mut core, 9)?
            && publishes(&mut core, (0, 65_536, 2))?
    );
    Ok(())
}

/// Whether the fault says this of itself.
fn says(alloc: Global, fault: StageRefused, text: &str) -> Result<bool, Fail> {
    let said = format!(in alloc; "{fault}")?;
    Ok(said.as_str() == text)
}

#[test]
fn stages_that_are_refused_say_why(rt: HostRuntime) -> Result<(), Fail> {
    assert!(rt;
        says(rt.alloc(), StageRefused::Full, "too many places")?
            && says(rt.alloc(), StageRefused::NoMemory, "out of memory")?
    );
    Ok(())
}
