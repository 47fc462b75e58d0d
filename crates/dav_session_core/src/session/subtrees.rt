//! All that stands at or below a path.
ghost use Rattle.std.specs.Prelude.{◌≡◌, ◌≢◌, ◌⊎◌, ◌↔◌, List, None, [], ◌∷◌, ◌++◌, map, false};
ghost use Rattle.std.specs.Prelude.{Contains, IfOk, IfErr, IsSome, OnOk};
ghost use Rattle.std.specs.List.{All};
ghost use Rattle.dav_path_core.specs.Fronts.{Path};
ghost use Rattle.dav_path_core.specs.PathReading.{CanBeSegment};
ghost use Rattle.dav_path_core.specs.Segments.{segments};
ghost use Rattle.dav_files_core.specs.declared.memfs.listing.MemFsEntry.{MemFsEntry};
ghost use Rattle.dav_files_core.specs.Finding.{has_members};
ghost use Rattle.dav_files_core.specs.Resources.{ResourceMap, at_path};
ghost use Rattle.dav_session_core.specs.MemberPaths.{paths_in, paths_of_members};
ghost use Rattle.dav_session_core.specs.Private.Gathering.{FailsToName};
ghost use Rattle.dav_session_core.specs.Private.WalkPlaces.{AreToldPlaces, IsToldPlace, is_listed_folder, place_path};
ghost use Rattle.dav_session_core.specs.Sessions.{Looks, state};
ghost use Rattle.dav_session_core.specs.Subtrees.{HasOddMember, IsSubtreeWalk};
ghost use Rattle.dav_faults_core.specs.declared.faults.Fault.TheVariants as fault;
ghost use Rattle.dav_session_core.specs.Questions.{FailsToWalk, found_at};
ghost use Rattle.dav_session_core.specs.Unhindered.{paths_of};

use super::Session;
use super::questions::copy_of;
use dav_faults_core::faults::Fault;
use dav_guarded_core::davpath::DavPath;
use dav_guarded_core::fs::DavDirEntry;
use dav_guarded_core::memfs::MemFsEntry;
use rand_core::Rng;
use std::alloc::{AllocError, Global};

/// Where a walk is. Where it is told to be no folder, nothing stands in it.
#[derive(Drop)]
pub(crate) struct Place {
    pub(crate) path: DavPath,
    pub(crate) folder: bool,
}

impl<R: Rng> Session<R> {
    /// The paths of all that stands at a path and below it, by the bytes of their names, and each
    /// folder before its members: so taken from the end, each stands alone when its turn comes
    /// (RFC 4918 sections 9.6.1 and 9.8.3).
    ///
    /// `NotFound` where nothing stands there; `BadRequest` where a name below it is one that no
    /// path has which is read, as only calls past path reading can make one.
    pub fn walk(&mut self, alloc: Global, path: DavPath) -> Result<Vec<DavPath>, Fault>
        ensures ok { IfOk result (λ places. IsSubtreeWalk (state R.stream self.old).map
            (segments path.bytes) (paths_of places.items)) }
        ensures found { OnOk result (IsSome (found_at R.stream self.old path)) }
        ensures err { IfErr result (λ e. FailsToWalk (state R.stream self.old).map
            (segments path.bytes) e) }
        ensures looks { Looks R.stream self.old self.new }
    {
        if self.meta(copy_of(&path)?).is_none() {
            return Err(Fault::NotFound);
        }
        let mut places = Vec::new(alloc);
        let mut waiting = Vec::new(alloc);
        waiting.push(Place { path, folder: true })?;
        while let Some(place) = waiting.pop() {
            let mut members = self.places_in(alloc, &place)?;
            members.reverse();
            waiting.append(&mut members)?;
            places.push(place)?;
        }
        Ok(paths_at(alloc, places)?)
    }

    // The paths of a folder's members; none where no folder stands at the path.
    pub(super) fn members(&mut self, alloc: Global, folder: DavPath) -> Result<Vec<DavPath>, Fault>
        ensures ok { IfOk result (λ paths. paths_of paths.items
            ≡ paths_of_members (state R.stream self.old).map (segments folder.bytes)) }
        ensures plain { OnOk result (¬ HasOddMember (state R.stream self.old).map
            (segments folder.bytes)) }
        ensures err { IfErr result (λ e. FailsToName (state R.stream self.old).map
            (segments folder.bytes) e) }
        ensures looks { Looks R.stream self.old self.new }
    {
        let place = Place {
            path: folder,
            folder: true,
        };
        let places = self.places_in(alloc, &place)?;
        Ok(paths_at(alloc, places)?)
    }

    // The members of a place; none where no folder stands there. Of a file nothing is asked.
    fn places_in(&mut self, alloc: Global, place: &Place) -> Result<Vec<Place>, Fault>
        requires known { IsToldPlace (state R.stream self.old).map place.now }
        ensures ok { IfOk result (λ places. map place_path places.items
            ≡ paths_of_members (state R.stream self.old).map (place_path place.now)) }
        ensures known { IfOk result (λ places. AreToldPlaces (state R.stream self.old).map
            places.items) }
        ensures plain { OnOk result (¬ HasOddMember (state R.stream self.old).map
            (place_path place.now)) }
        ensures err { IfErr result (λ e. FailsToName (state R.stream self.old).map
            (place_path place.now) e) }
        ensures looks { Looks R.stream self.old self.new }
    {
        if !place.folder {
            return Ok(Vec::new(alloc));
        }
        match self.list(copy_of(&place.path)?) {
            Ok(entries) => member_places(alloc, &place.path, &entries),
            Err(Fault::NotFound) => Ok(Vec::new(alloc)),
            Err(fault) => Err(fault),
        }
    }
}

/// The law of what stands last in a walk: it has no members (RFC 4918 section 9.6.1). It does
/// nothing.
pub fn last_place_is_bare()
    ensures { (m : ResourceMap) (p last : Path) (before : List Path)
        → IsSubtreeWalk m p (before ++ (last ∷ [])) → has_members m last ≡ false }
{}

/// The law of a walk whose last place is gone: what stands before it in the list is a walk of what
/// is left (RFC 4918 section 9.6.1). It does nothing.
pub fn walk_without_its_last()
    ensures { (m after : ResourceMap) (p last : Path) (before : List Path)
        → IsSubtreeWalk m p (before ++ (last ∷ [])) → at_path after last ≡ None
        → ((q : Path) → q ≢ last → IsSome (at_path after q) ↔ IsSome (at_path m q))
        → IsSubtreeWalk after p before }
{}

/// The law of walks (own): what stands at a path and below it in a map has one walk. It does
/// nothing.
pub fn walks_are_equal()
    ensures { (m : ResourceMap) (p : Path) (places others : List Path) → IsSubtreeWalk m p places
        → IsSubtreeWalk m p others → places ≡ others }
{}

// Listed members of a folder, as places.
fn member_places(
    alloc: Global,
    folder: &DavPath,
    entries: &[MemFsEntry],
) -> Result<Vec<Place>, Fault>
    ensures ok { IfOk result (λ places. map place_path places.items
        ≡ paths_in (segments folder.now.bytes) (map (λ e. e.name) entries.now)) }
    ensures kinds { IfOk result (λ places. map (λ w. w.folder) places.items
        ≡ map is_listed_folder entries.now) }
    ensures plain { OnOk result (All (λ e. CanBeSegment e.name) entries.now) }
    ensures err { IfErr result (λ e. (e ≡ fault.InsufficientStorage)
        ⊎ ((e ≡ fault.BadRequest) × ((entry : MemFsEntry) × Contains entries.now entry
        × ¬ CanBeSegment entry.name))) }
{
    let mut places = Vec::new(alloc);
    for entry in entries {
        places.push(Place {
            path: folder.child(entry.name())?,
            folder: is_folder(entry),
        })?;
    }
    Ok(places)
}

// Whether a member is listed as a folder.
fn is_folder(entry: &MemFsEntry) -> bool
    ensures { result ≡ is_listed_folder entry.now }
{
    match entry.is_dir() {
        Ok(folder) => folder,
        Err(_) => false,
    }
}

// The paths of places.
fn paths_at(alloc: Global, places: Vec<Place>) -> Result<Vec<DavPath>, AllocError>
    ensures { IfOk result (λ paths. paths_of paths.items ≡ map place_path places.items) }
{
    let mut paths = Vec::new(alloc);
    for place in places {
        paths.push(place.path)?;
    }
    Ok(paths)
}
