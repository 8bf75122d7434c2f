//! Each input has one answer.
ghost use Rattle.std.specs.Prelude.{◌≡◌, Result};
ghost use Rattle.doip_segment.specs.declared.outcome.Limits.{Limits};
ghost use Rattle.doip_message.specs.Reply.{Replied};
ghost use Rattle.doip_client.specs.declared.fault.ClientFault.{ClientFault};
ghost use Rattle.doip_client.specs.Exchange.{Exchange, ReadOneInput};

/// The bytes to read decide the answer, and how many of them are read, where no call of the link fails and memory
/// suffices. A law: it does nothing when it runs.
pub fn one_input_has_one_answer()
    ensures { (limits : Limits) (one other : Exchange) (first second : Result Replied ClientFault)
        → ReadOneInput limits one other first second → (first ≡ second) × (one.took ≡ other.took) }
{}
