//! Laws of histories, of shares and of runs. Their functions do nothing when they run.
ghost use Rattle.std.specs.Prelude.{◌≡◌, ℕ, List, ◌++◌};
ghost use Rattle.history_lock.specs.declared.board.Entered.{Entered};
ghost use Rattle.history_lock.specs.declared.board.Share.{Share};
ghost use Rattle.history_lock.specs.History.{entries_by, Leads};
ghost use Rattle.history_lock.specs.Laws.{NoneBetween, NoneNew, GoesOnByOne, GoesOn, Parts};

use crate::turned::Turned;

/// Between what a pass had seen and its turn there is no turn under a number that it holds. Its `holds_own` before and
/// after the turn are the premises.
pub fn own_turns_are_next_to_each_other<E>()
    ensures { (before between : List (Entered E)) (shares : List (Share E)) (entry : E)
        → NoneBetween before between shares entry }
{}

/// What a pass sees by a meeting or by a join, beyond what it had seen, has no turn under a number that it held. The
/// same is true of a pass that another took in. The `holds_own` of the passes are the premises.
pub fn own_turns_are_never_news<E>()
    ensures meeting { (before more : List (Entered E)) (shares : List (Share E)) → NoneNew before more shares shares }
    ensures joining { (before more : List (Entered E)) (shares others : List (Share E))
        → NoneNew before more shares (shares ++ others) }
    ensures joined { (before more : List (Entered E)) (shares others : List (Share E))
        → NoneNew before more shares (others ++ shares) }
{}

/// The entries under a number are those of a first part, and then those of the rest.
pub fn entries_go_by_parts<E>()
    ensures { (number : ℕ) (before later : List (Entered E))
        → entries_by number (before ++ later) ≡ entries_by number before ++ entries_by number later }
{}

/// Runs of a value go on and have parts.
pub fn runs_go_by_parts<T: Turned>()
    ensures by_one { (first : T) (history : List T.Entry) (mid : T) (entry : T.Entry) (last : T)
        → GoesOnByOne (Leads T.step) first history mid entry last }
    ensures goes_on { (first : T) (before : List T.Entry) (mid : T) (later : List T.Entry) (last : T)
        → GoesOn (Leads T.step) first before mid later last }
    ensures parts { (first : T) (before later : List T.Entry) (last : T)
        → Parts (Leads T.step) first before later last }
{}
