//! How a turn ends.

/// How a turn ended.
#[derive(Clone, Copy, Debug, PartialEq, Eq)]
pub enum Outcome {
    /// With the reply of the step.
    Done,
    /// Out of memory, and the reply says so. Nothing is changed.
    NoMemory,
    /// The disk failed as the change was committed, and the reply says so. The store is closed from then on.
    DiskFault,
    /// The store was closed by an earlier turn, and the reply says so.
    Closed,
}
