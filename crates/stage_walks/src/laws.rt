//! The laws as the clauses of functions that do nothing.
ghost use Rattle.stage_walks.specs.Laws.{StageIsWhole, WalksTheStage};

/// The stage of a world by which the program walks, publishes and is asked is that of composition: the same paths with the same views in
/// the same order. With more levels it would be no longer.
pub fn the_program_walks_the_stage()
    ensures { WalksTheStage }
{}

/// The stage is `/` and every name that a prim on it lists, and nothing else, whatever the limits and the world are: a path that is listed
/// has no more names than a path may have, so the walk never stops above a prim that lists children.
pub fn the_stage_is_whole()
    ensures { StageIsWhole }
{}
