//! Laws of turns and of sessions. Each call does nothing when it runs: a proof calls it for its clause.
ghost use Rattle.lane_server.specs.Turns.{LawOfTurns};
ghost use Rattle.lane_server.specs.Admitting.{LawOfAdmissions};
ghost use Rattle.lane_server.specs.Closing.{LawOfClosing};
ghost use Rattle.lane_server.specs.Lanes.{LawOfLonger};

use disk_core::Disk;
use link_core::{Clock, Link, Listener};
use repo_store::Planner;

/// The turns that a lock took on a store are turns of that store, one after another in one setting: so what the laws of
/// `repo_store` say of a list of turns is true of a lock's history.
pub fn turns_of_a_lock_are_turns<D: Disk, C: Clock, P: Planner>()
    ensures { LawOfTurns D.Disk C.given P.setting }
{}

/// Where a link reports what is left to read, its session is the same after the link was closed: so what the laws of
/// `session_core` say of a session is true of it.
pub fn closing_keeps_the_session()
    ensures { LawOfClosing }
{}

/// Whatever turns lanes take at a door: the links that were accepted are fresh and are the first of the listener's list,
/// in order, and the others are still in it; each fault of accepting was counted; none was returned only where all were
/// accepted or the list is at its end.
pub fn doors_admit_in_order<Li: Listener>()
    ensures { LawOfAdmissions Li.Link.state Li.state }
{}

/// What a lane served is the same in any longer history, as the pass that its own is joined into may have seen it, if that
/// has no more turns of the lane.
pub fn sessions_stay_in_longer_histories<L: Link>()
    ensures { LawOfLonger L.state }
{}
