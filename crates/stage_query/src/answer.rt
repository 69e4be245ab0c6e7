/// The answer to a question on a stage.
#[derive(Clone, Copy, Debug, PartialEq, Eq)]
pub enum Answer<T> {
    /// What was asked for.
    Is(T),
    /// The stage has no prim at the path.
    NoPrim,
    /// The prim has no property of the name, or has a relationship where an attribute was asked for.
    NoProperty,
    /// There is no opinion on it; of samples also where a default decides, of a default also where there are samples alone.
    NoValue,
    /// The value is blocked.
    Blocked,
}
