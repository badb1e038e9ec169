/// What a look at the counts of an association tells.
#[derive(Clone, Copy, Debug, PartialEq, Eq)]
pub enum LifeEvent {
    /// No limit is reached, or a soft one that was told before.
    Nothing,
    /// A soft limit is reached, of which nothing was told since the last session.
    Soft,
    /// A hard limit is reached.
    Hard,
}
