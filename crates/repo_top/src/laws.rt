//! Laws of sessions and histories: each is the contract of a function that does nothing.
ghost use Rattle.std.specs.Prelude.{◌≡◌, ◌≢◌, List};
ghost use Rattle.doip_segment.specs.declared.outcome.Limits.{Limits};
ghost use Rattle.session_core.specs.declared.end.SessionEnd.TheVariants.{WriteFault};
ghost use Rattle.session_core.specs.Cuts.{ReadTheSame};
ghost use Rattle.session_core.specs.OneInput.{ReadOneInput};
ghost use Rattle.session_core.specs.Session.{Transcript};
ghost use Rattle.repo_step.specs.Setting.{Setting, State};
ghost use Rattle.repo_step.specs.History.{Entry};
ghost use Rattle.repo_top.specs.Session.{IsSessionOf, HaveSameOutcomes};

use repo_step::equal_causes_give_equal_texts;
use session_core::{cuts_do_not_matter, one_input_gives_one_session};

/// However the input is cut into reads: two sessions of a repository that is set up the same way and begins in one state,
/// over one input and with the same outcomes turn by turn, wrote the same bytes and ended alike, if no call of a link failed. If a read may
/// have failed, two sessions that read the same bytes still wrote the same.
pub fn outcomes_give_the_bytes()
    ensures input { (setting : Setting) (first : State) (limits : Limits) (past other : List Entry) (t u : Transcript)
        → IsSessionOf setting first past t → IsSessionOf setting first other u → ReadOneInput limits t u
        → HaveSameOutcomes past other → (t.written ≡ u.written) × (t.end ≡ u.end) }
    ensures read { (setting : Setting) (first : State) (limits : Limits) (past other : List Entry) (t u : Transcript)
        → IsSessionOf setting first past t → IsSessionOf setting first other u → ReadTheSame limits t u
        → HaveSameOutcomes past other → t.end ≢ WriteFault → u.end ≢ WriteFault → t.written ≡ u.written }
{
    one_input_gives_one_session();
    cuts_do_not_matter();
    equal_causes_give_equal_texts();
}
