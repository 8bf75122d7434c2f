//! Laws of the step and of histories. Their functions do nothing when they run.
ghost use Rattle.std.specs.Prelude.{◌≡◌, ℕ, List, [], Bool, true, map, Some};
ghost use Rattle.doip_segment.specs.Segments.{Segment};
ghost use Rattle.record_core.specs.declared.change.Change.{Change};
ghost use Rattle.repo_state.specs.Sound.{IsConsistent};
ghost use Rattle.repo_step.specs.declared.brought.Brought.{Brought};
ghost use Rattle.repo_step.specs.Setting.{Setting, State};
ghost use Rattle.repo_step.specs.Step.{step};
ghost use Rattle.repo_step.specs.History.{Entry, exchanges_of, session_pairs};
ghost use Rattle.repo_step.specs.Laws.{IsNoFixedText, Continues, AddsOne, NonePasses, IsAllOf, cause_of, CanFollow};

use repo_state::changes_keep_consistency;

/// No reply of the step has the text for out of memory, for a disk fault, for a closed store or for a framing fault. So
/// whoever reads one of these texts knows that no step wrote it.
pub fn no_reply_is_a_fixed_text()
    ensures { (setting : Setting) (brought : Brought) (state : State) (message : List Segment)
        → IsNoFixedText (step setting brought state message).reply }
{}

/// The replies of a history are those of its first part, and then those of the rest from the state that the first part
/// left. One more entry adds its exchange if it passes the test, and entries of which none passes have no exchange.
pub fn replies_go_from_state_to_state()
    ensures goes_on { (setting : Setting) (passes : Entry → Bool) (first : State) (before later : List Entry)
        → Continues setting passes first before later }
    ensures adds_one { (setting : Setting) (passes : Entry → Bool) (first : State) (before : List Entry) (e : Entry)
        → passes e ≡ true → AddsOne setting passes first before e }
    ensures none { (setting : Setting) (passes : Entry → Bool) (first : State) (history : List Entry)
        → NonePasses passes history → exchanges_of setting passes first history ≡ [] }
{}

/// In two histories that are each of one session, equal messages, outcomes and what was brought give equal texts of the
/// replies, whatever the moments.
pub fn equal_causes_give_equal_texts()
    ensures { (setting : Setting) (first : State) (lane session other_lane other_session : ℕ)
        (history other : List Entry)
        → IsAllOf lane session history → IsAllOf other_lane other_session other
        → map cause_of history ≡ map cause_of other
        → session_pairs setting first lane session history
        ≡ session_pairs setting first other_lane other_session other }
{}

/// In a consistent repository each change of the step can be made: its counter is in range, there is a number for it, its
/// record finds room in the area, and the repository is consistent after it.
pub fn steps_keep_consistency()
    ensures { (setting : Setting) (brought : Brought) (s : State) (message : List Segment) (change : Change)
        → IsConsistent s.contents → (step setting brought s message).change ≡ Some change
        → CanFollow brought s change }
{
    changes_keep_consistency();
}
