//! The places that a request is about, within its depth.
ghost use Rattle.std.specs.Prelude.{◌≡◌, ◌∷◌, [], IfErr, IfOk, IsSome, OnOk};
ghost use Rattle.dav_path_core.specs.Segments.{segments};
ghost use Rattle.dav_headers_core.specs.declared.davheaders.depths.Depth.TheVariants as depth_of;
ghost use Rattle.dav_session_core.specs.DepthPlaces.{AreWithin, HasOddWithin};
ghost use Rattle.dav_session_core.specs.Placed.{AllStand, IsNowhere};
ghost use Rattle.dav_session_core.specs.Sessions.{Looks, state};
ghost use Rattle.dav_session_core.specs.Questions.{LacksAny, found_at};
ghost use Rattle.dav_session_core.specs.Unhindered.{paths_of};

use super::Session;
use super::questions::copy_of;
use dav_faults_core::faults::Fault;
use dav_guarded_core::davheaders::Depth;
use dav_guarded_core::davpath::DavPath;
use rand_core::Rng;
use std::alloc::{AllocError, Global};

impl<R: Rng> Session<R> {
    /// The paths of what a request is about: of the path alone, or with those of its members, or as
    /// `walk` (RFC 4918 section 10.2).
    ///
    /// `NotFound` where nothing stands there; `BadRequest` for no depth of these, or where a name
    /// is one that no path has which is read.
    pub fn places_within(
        &mut self,
        alloc: Global,
        path: DavPath,
        depth: Depth,
    ) -> Result<Vec<DavPath>, Fault>
        ensures ok { IfOk result (λ places. AreWithin depth (state R.stream self.old).map
            (segments path.bytes) (paths_of places.items)) }
        ensures plain { OnOk result (¬ HasOddWithin depth (state R.stream self.old).map
            (segments path.bytes)) }
        ensures found { OnOk result (IsSome (found_at R.stream self.old path)) }
        ensures stand { IfOk result (λ places. AllStand (state R.stream self.old).map
            (paths_of places.items)) }
        ensures err { IfErr result (λ e. IsNowhere depth (state R.stream self.old).map
            (segments path.bytes) e) }
        ensures looks { Looks R.stream self.old self.new }
    {
        match depth {
            Depth::Zero => return self.place_alone(alloc, path),
            Depth::One => return self.with_members(alloc, path),
            Depth::Infinity => return self.walk(alloc, path),
            Depth::Default => return Err(Fault::BadRequest),
        }
    }

    // The path alone, where something stands there.
    fn place_alone(&mut self, alloc: Global, path: DavPath) -> Result<Vec<DavPath>, Fault>
        ensures ok { IfOk result (λ places. paths_of places.items ≡ segments path.bytes ∷ []) }
        ensures found { OnOk result (IsSome (found_at R.stream self.old path)) }
        ensures err { IfErr result (λ e. LacksAny (found_at R.stream self.old path) e) }
        ensures looks { Looks R.stream self.old self.new }
    {
        match self.meta(copy_of(&path)?) {
            Some(_) => Ok(alone(alloc, path)?),
            None => Err(Fault::NotFound),
        }
    }

    // The path, and those of its members.
    fn with_members(&mut self, alloc: Global, path: DavPath) -> Result<Vec<DavPath>, Fault>
        ensures ok { IfOk result (λ places. AreWithin depth_of.One (state R.stream self.old).map
            (segments path.bytes) (paths_of places.items)) }
        ensures plain { OnOk result (¬ HasOddWithin depth_of.One (state R.stream self.old).map
            (segments path.bytes)) }
        ensures found { OnOk result (IsSome (found_at R.stream self.old path)) }
        ensures err { IfErr result (λ e. IsNowhere depth_of.One (state R.stream self.old).map
            (segments path.bytes) e) }
        ensures looks { Looks R.stream self.old self.new }
    {
        let mut places = self.place_alone(alloc, copy_of(&path)?)?;
        let mut members = self.members(alloc, path)?;
        places.append(&mut members)?;
        Ok(places)
    }
}

fn alone(alloc: Global, path: DavPath) -> Result<Vec<DavPath>, AllocError>
    ensures { IfOk result (λ places. paths_of places.items ≡ segments path.bytes ∷ []) }
{
    let mut places = Vec::new(alloc);
    places.push(path)?;
    Ok(places)
}
