//! What a turn brings.

/// What a turn brings to a step beside the message.
#[derive(Clone, Copy, Debug)]
pub struct Brought {
    /// The time of the turn, in milliseconds since 1970; 0 stands for an unknown time.
    pub time: u64,
}
