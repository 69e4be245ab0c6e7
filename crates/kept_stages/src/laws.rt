//! The laws as the clauses of functions that do nothing.
ghost use Rattle.kept_stages.specs.Exact.{ExactTest};
ghost use Rattle.kept_stages.specs.DatedViews.{ViewsAreDated};
ghost use Rattle.kept_stages.specs.Dates.{DatesAreRight};
ghost use Rattle.kept_stages.specs.Laws.{KeptIsComposed, ViewsAreComposed};

/// Whatever is composed, as long as it is settled by what it reads: after any batches, accepted or refused, and whatever workers compose
/// meanwhile, in any order, what is kept and not marked is what is composed from scratch of the world as it is; and so is each stage that is
/// published.
pub fn a_kept_stage_is_the_composed_one<World, Place, Key, Entry>()
    ensures { KeptIsComposed World Place Key Entry }
{}

/// The views of composition are so settled, by any test that sees each change of a key.
pub fn views_are_settled_by_what_they_read()
    ensures { ViewsAreComposed }
{}

/// So it is with dates, whatever is composed and whatever befalls it but that something is forgotten between two publishes: what is told from
/// what is kept, that a batch changed something of what a place read since the last version, gives the dates that the worlds of the versions
/// tell.
pub fn the_dates_of_a_kept_stage_are_right<World, Place, Key, Entry>()
    ensures { DatesAreRight World Place Key Entry }
{}

/// Of the views of composition they are its dates, by a test that sees exactly the changes of keys.
pub fn views_are_dated_by_what_they_read()
    ensures { ViewsAreDated }
{}

/// There is a test that sees exactly the changes of keys: it compares what stands there. So the two laws on views are not about nothing.
pub fn a_comparison_tells_changes_exactly()
    ensures { ExactTest }
{}
