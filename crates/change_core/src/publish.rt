//! The answer of a publish.

use compose_api::Composer;

/// A published stage: its version, the number of batches accepted before it, and its places with their entries, depth first from the root place.
#[derive(Drop)]
pub struct Items<C: Composer> {
    /// The version of the stage.
    pub version: u64,
    /// How many batches were accepted before it.
    pub batches: u64,
    /// The places with their entries, each place before those below it.
    pub items: plain_data::Items<(C::Place, C::Entry)>,
}

/// What a publish answers.
#[derive(Drop)]
pub enum PublishReply<C: Composer> {
    /// The stage was published.
    Published {
        /// The stage, with its version and its places.
        edition: Items<C>,
    },
    /// A place has no current entry. A core that composes each place anew never answers this.
    NotClean {
        /// The place.
        place: C::Place,
    },
}
