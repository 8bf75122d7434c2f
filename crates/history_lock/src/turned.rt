//! What a value has to offer to be taken in turns.

/// A value that takes one call at a time. Its turns make the history of a lock, one entry a turn.
pub trait Turned {
    type Call;

    type Reply;
    /// What the history keeps of a turn.
    type Entry;

    /// Which calls may be made.
    ghost may_take: { Self.Call → Type 0 } = { λ _. Unit {0} };

    /// Which turns there are: the value before, the call, the entry, the reply and the value after.
    ghost step: { Self → Self.Call → Self.Entry → Self.Reply → Self → Type 0 };

    /// Takes one turn. It may end in any way that `step` allows.
    fn turn(&mut self, call: Self::Call) -> Self::Reply
        requires { may_take call }
        ensures { (entry : Self.Entry) × step self.old call entry result self.new };
}
