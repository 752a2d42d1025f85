//! Laws of listeners, for the crates that keep logs of them.

ghost use Rattle.std.specs.Prelude.{List};
ghost use Rattle.pres_tree.specs.Paths.{Path};
ghost use Rattle.pres_ids.specs.declared.id.SessionId.{SessionId};
ghost use Rattle.pres_write.specs.Basics.{BasicWrite};
ghost use Rattle.pres_fan.specs.Laws.{OnSteps, OffSteps, DropSteps, PathsRise, TouchedRises, TouchedTells};
ghost use Rattle.pres_fan.specs.declared.listeners.Listener.{Listener};

/// A session that listens to one place more has it among its places, and the others keep theirs.
pub fn on_steps()
    ensures { (session : SessionId) (path : Path) (listeners : List Listener)
        → OnSteps session path listeners }
{}

/// A session that listens to a place no more has its other places, and the others keep theirs.
pub fn off_steps()
    ensures { (session : SessionId) (path : Path) (listeners : List Listener)
        → OffSteps session path listeners }
{}

/// A session that is dropped has no place, and the others keep theirs.
pub fn drop_steps()
    ensures { (session : SessionId) (listeners : List Listener) → DropSteps session listeners }
{}

/// The places of a session stand once each, in path order.
pub fn paths_rise()
    ensures { (session : SessionId) (listeners : List Listener) → PathsRise session listeners }
{}

/// The sessions that writes touch stand once each, in order, and so do the places of each.
pub fn touched_rises()
    ensures { (writes : List BasicWrite) (listeners : List Listener)
        → TouchedRises writes listeners }
{}

/// A session is among those that writes touch exactly where they touch a place of it, and with
/// those places.
pub fn touched_tells()
    ensures { (writes : List BasicWrite) (session : SessionId) (listeners : List Listener)
        → TouchedTells writes session listeners }
{}
