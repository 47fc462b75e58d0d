//! How all that stands at a path is taken away, so that no lock stops it half-way.
ghost use Rattle.std.specs.Prelude.{◌≡◌, [], ◌∷◌, length, IfErr, OnErr, OnOk};
ghost use Rattle.dav_path_core.specs.Segments.{segments};
ghost use Rattle.dav_files_core.specs.Resources.{IsResourceMap};
ghost use Rattle.dav_session_core.specs.LocksInTheWay.{IsRefusedBy};
ghost use Rattle.dav_session_core.specs.Removing.{IsRemoved};
ghost use Rattle.dav_session_core.specs.NoteCosts.{removal_cost};
ghost use Rattle.dav_session_core.specs.Sessions.{Acts, HasRoomForNotes, IsAsBefore, caller, live_of};
ghost use Rattle.dav_session_core.specs.Sessions.{Looks, state};
ghost use Rattle.dav_session_core.specs.Questions.{against_removal};
ghost use Rattle.dav_session_core.specs.Unhindered.{WhereRemovable, paths_of};

use super::questions::copy_of;
use super::rooms::cost_of_removals;
use super::{RoomError, Session};
use dav_faults_core::faults::Fault;
use dav_guarded_core::davpath::DavPath;
use dav_guarded_core::guarded::Command;
use rand_core::Rng;

impl<R: Rng> Session<R> {
    /// Whether the locks let the caller take away what stands at each of the places (RFC 4918
    /// sections 7.1 and 7.4). `Locked` where one stands in the way, at a place, below it, or at the
    /// folder that it stands in; with its path.
    pub fn check_removal(&mut self, places: &[DavPath]) -> Result<(), Fault>
        ensures ok { OnOk result (against_removal R.stream self.old (paths_of places.now) ≡ []) }
        ensures err { IfErr result (λ e. IsRefusedBy
            (against_removal R.stream self.old (paths_of places.now)) e) }
        ensures looks { Looks R.stream self.old self.new }
    {
        for place in places {
            self.check_one(place)?;
        }
        Ok(())
    }

    /// Of one place.
    pub fn check_one(&mut self, place: &DavPath) -> Result<(), Fault>
        ensures ok { OnOk result (against_removal R.stream self.old (segments place.now.bytes ∷ [])
            ≡ []) }
        ensures err { IfErr result (λ e. IsRefusedBy
            (against_removal R.stream self.old (segments place.now.bytes ∷ [])) e) }
        ensures looks { Looks R.stream self.old self.new }
        ensures shape { OnOk result (IsResourceMap (state R.stream self.new).map) }
    {
        self.check_reached(copy_of(place)?, true)?;
        self.check(place.parent()?)
    }

    /// Takes away all that stands at or below a path, members before their folders (RFC 4918
    /// section 9.6.1). Where the places are all of it, and no lock refuses to take one away, none
    /// of these requests is refused. An error, where there is no room for the notes of all of them,
    /// has changed nothing.
    pub fn remove_all(&mut self, places: Vec<DavPath>) -> Result<(), RoomError>
        ensures removed { OnOk result (WhereRemovable (live_of R.stream self.old)
            (caller self.old) (paths_of places.items) (λ p. IsRemoved (caller self.old).now p
            (live_of R.stream self.old) (state R.stream self.new))) }
        ensures refused { OnErr result (IsAsBefore R.stream self.old self.new) }
        ensures acts { Acts R.stream self.old self.new }
    {
        self.make_room_to_remove(&places)?;
        self.remove_each(places);
        Ok(())
    }

    // Makes room for the notes of taking these places away, where notes are kept.
    fn make_room_to_remove(&mut self, places: &[DavPath]) -> Result<(), RoomError>
        ensures ok { OnOk result (HasRoomForNotes (length places.now)
            (removal_cost (caller self.new) (paths_of places.now)) self.new) }
        ensures same { IsAsBefore R.stream self.old self.new }
    {
        if !self.stores.keeps() {
            return Ok(());
        }
        let bytes = cost_of_removals(self.stores.who(), places);
        self.make_room(places.len(), bytes)
    }

    // The same, where there is room for their notes.
    fn remove_each(&mut self, places: Vec<DavPath>)
        requires room { HasRoomForNotes (length places.items)
            (removal_cost (caller self.old) (paths_of places.items)) self.old }
        ensures removed { WhereRemovable (live_of R.stream self.old) (caller self.old)
            (paths_of places.items) (λ p. IsRemoved (caller self.old).now p
            (live_of R.stream self.old) (state R.stream self.new)) }
        ensures acts { Acts R.stream self.old self.new }
    {
        let mut places = places;
        while let Some(path) = places.pop() {
            drop(self.change(Command::Remove { path }));
        }
    }
}
