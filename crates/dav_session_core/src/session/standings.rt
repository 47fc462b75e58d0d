//! What stands at a path, as the conditions of HTTP see it.
ghost use Rattle.std.specs.Prelude.{◌≡◌, IfOk, IfErr, max};
ghost use Rattle.dav_path_core.specs.Segments.{segments};
ghost use Rattle.dav_files_core.specs.Meta.{meta_of};
ghost use Rattle.dav_fields_core.specs.FileTags.{standing_at, standing_known};
ghost use Rattle.dav_fields_core.specs.LatestMoments.{last_change, latest_above, latest_along};
ghost use Rattle.dav_fields_core.specs.Marking.{HasShownTag};
ghost use Rattle.dav_session_core.specs.Questions.{found_at};
ghost use Rattle.dav_session_core.specs.Sessions.{Looks, state};
ghost use Rattle.dav_faults_core.specs.declared.faults.Fault.TheVariants as fault;

use super::Session;
use super::questions::copy_of;
use super::unlocking::depth_of;
use dav_faults_core::faults::Fault;
use dav_fields_core::etags::{Standing, file_tag};
use dav_guarded_core::davpath::DavPath;
use dav_guarded_core::fs::{DavMetaData, Moment};
use dav_guarded_core::memfs::MemFsMeta;
use rand_core::Rng;
use std::alloc::Global;

impl<R: Rng> Session<R> {
    /// What stands at a path, as conditions see it. `InsufficientStorage` where there is no memory
    /// to look, or for a file's tag.
    pub fn standing(&mut self, alloc: Global, path: &DavPath) -> Result<Standing, Fault>
        ensures ok { IfOk result (λ standing. standing
            ≡ standing_at (state R.stream self.old).map (segments path.now.bytes)) }
        ensures err { IfErr result (λ e. e ≡ fault.InsufficientStorage) }
        ensures looks { Looks R.stream self.old self.new }
    {
        match self.meta(copy_of(path)?) {
            Some(known) => self.standing_known(alloc, path, &known),
            None => Ok(Standing::Nothing),
        }
    }

    /// The same, by what is known of what stands there. `InsufficientStorage` alone.
    pub fn standing_known(
        &mut self,
        alloc: Global,
        path: &DavPath,
        known: &MemFsMeta,
    ) -> Result<Standing, Fault>
        ensures ok { IfOk result (λ standing. standing
            ≡ standing_known (state R.stream self.old).map (segments path.now.bytes)
            (meta_of known.now)) }
        ensures shown { IfOk result (λ standing. HasShownTag standing) }
        ensures err { IfErr result (λ e. e ≡ fault.InsufficientStorage) }
        ensures looks { Looks R.stream self.old self.new }
    {
        if known.is_dir() {
            return Ok(Standing::Folder);
        }
        let modified = known.modified().unwrap();
        let tag = file_tag(alloc, modified, known.len())?;
        let latest = self.latest_along(path, known)?;
        Ok(Standing::File {
            tag,
            modified,
            latest,
        })
    }

    // The latest of the moments along a path. `InsufficientStorage` alone.
    fn latest_along(&mut self, path: &DavPath, known: &MemFsMeta) -> Result<Moment, Fault>
        ensures ok { IfOk result (λ latest. latest.0
            ≡ latest_along (state R.stream self.old).map (segments path.now.bytes)
            (meta_of known.now)) }
        ensures err { IfErr result (λ e. e ≡ fault.InsufficientStorage) }
        ensures looks { Looks R.stream self.old self.new }
    {
        let own = later(known.created().unwrap(), known.modified().unwrap());
        self.later_above(path, own)
    }

    // The later of a moment, and of the latest at which the folders above a path were changed.
    // `InsufficientStorage` alone.
    fn later_above(&mut self, path: &DavPath, first: Moment) -> Result<Moment, Fault>
        ensures ok { IfOk result (λ latest. latest.0
            ≡ max first.0 (latest_above (state R.stream self.old).map (segments path.now.bytes))) }
        ensures err { IfErr result (λ e. e ≡ fault.InsufficientStorage) }
        ensures looks { Looks R.stream self.old self.new }
    {
        let mut latest = first;
        let mut here = copy_of(path)?;
        for _ in 0..depth_of(path) {
            here = here.parent()?;
            latest = later(latest, self.changed(copy_of(&here)?));
        }
        Ok(latest)
    }

    // When what stands at a path was changed last; the first moment of all where nothing does.
    fn changed(&mut self, path: DavPath) -> Moment
        ensures changed { result.0 ≡ last_change (found_at R.stream self.old path) }
        ensures looks { Looks R.stream self.old self.new }
    {
        match self.meta(path) {
            Some(meta) => meta.modified().unwrap(),
            None => Moment(0),
        }
    }
}

fn later(first: Moment, second: Moment) -> Moment
    ensures { result.0 ≡ max first.0 second.0 }
{
    Moment(first.0.max(second.0))
}
