//! What commands are checked for: the locks that stand in their way.
ghost use Rattle.std.specs.Prelude.{◌≡◌, ◌∷◌, [], ◌++◌, true, option_map, string_bytes, OnOk, IfErr};
ghost use Rattle.dav_locks_core.specs.Calls.{lent_text};
ghost use Rattle.dav_locks_core.specs.Stale.{without_stale};
ghost use Rattle.dav_path_core.specs.Segments.{segments};
ghost use Rattle.dav_guarded_core.specs.Checks.{caller_of, checks, refusing, reach_check, member, target};
ghost use Rattle.dav_guarded_core.specs.Served.{command_of, request_of};
ghost use Rattle.dav_guarded_core.specs.Private.RequestServing.{RefusedBy};

use super::{Command, Guarded, Refusal, Request};
use dav_path_core::davpath::{DavPath, DavPathRef};

impl Guarded {
    // Makes the checks of a command (RFC 4918 section 7).
    pub(super) fn check_command(&mut self, request: &Request) -> Result<(), Refusal>
        requires fresh { without_stale request.now.now.0 self.old.locks ≡ self.old.locks }
        ensures ok { OnOk result (refusing self.old.locks (caller_of (request_of request.entry.now))
            (checks self.old.map (command_of request.entry.now.command)) ≡ []) }
        ensures err { IfErr result (RefusedBy self.old.locks (caller_of (request_of request.entry.now))
            (checks self.old.map (command_of request.entry.now.command))) }
        ensures same { self.new ≡ self.old }
    {
        match &request.command {
            Command::Put { path, .. } => return self.check_target(request, path),
            Command::Write { path, .. } => return self.check_path(request, path, false),
            Command::MkCol { path } => return self.check_member(request, path, false),
            Command::Remove { path } => return self.check_member(request, path, true),
            Command::Move { from, to } => return self.check_ends(request, from, to),
            Command::Copy { to, .. } => return self.check_target(request, to),
            Command::PatchProps { path, .. } => return self.check_path(request, path, false),
            Command::Check { path, deep } => return self.check_path(request, path, *deep),
            _ => return Ok(()),
        }
    }

    // Checks a target, and its parent where nothing stands at the target (RFC 4918 section 7.4).
    fn check_target(&mut self, request: &Request, path: &DavPath) -> Result<(), Refusal>
        requires fresh { without_stale request.now.now.0 self.old.locks ≡ self.old.locks }
        ensures ok { OnOk result (refusing self.old.locks (caller_of (request_of request.entry.now))
            (target self.old.map (segments path.now.bytes)) ≡ []) }
        ensures err { IfErr result (RefusedBy self.old.locks (caller_of (request_of request.entry.now))
            (target self.old.map (segments path.now.bytes))) }
        ensures same { self.new ≡ self.old }
    {
        if self.fs.metadata(path).is_ok() {
            return self.check_path(request, path, false);
        }
        return self.check_member(request, path, false);
    }

    // Checks both ends of a move, with what is below them, and their parents.
    fn check_ends(&mut self, request: &Request, from: &DavPath, to: &DavPath) -> Result<(), Refusal>
        requires fresh { without_stale request.now.now.0 self.old.locks ≡ self.old.locks }
        ensures ok { OnOk result (refusing self.old.locks (caller_of (request_of request.entry.now))
            (member (segments from.now.bytes) true ++ member (segments to.now.bytes) true) ≡ []) }
        ensures err { IfErr result (RefusedBy self.old.locks (caller_of (request_of request.entry.now))
            (member (segments from.now.bytes) true ++ member (segments to.now.bytes) true)) }
        ensures same { self.new ≡ self.old }
    {
        self.check_member(request, from, true)?;
        return self.check_member(request, to, true);
    }

    // Checks a path, and its parent, which changes with it.
    fn check_member(&mut self, request: &Request, path: &DavPath, deep: bool) -> Result<(), Refusal>
        requires fresh { without_stale request.now.now.0 self.old.locks ≡ self.old.locks }
        ensures ok { OnOk result (refusing self.old.locks (caller_of (request_of request.entry.now))
            (member (segments path.now.bytes) deep) ≡ []) }
        ensures err { IfErr result (RefusedBy self.old.locks (caller_of (request_of request.entry.now))
            (member (segments path.now.bytes) deep)) }
        ensures same { self.new ≡ self.old }
    {
        self.check_path(request, path, deep)?;
        self.check_path_ref(request, &path.parent_ref(), false)
    }

    // Checks one path, and all below it where `deep`, by the request's tokens and principal.
    fn check_path(&mut self, request: &Request, path: &DavPath, deep: bool) -> Result<(), Refusal>
        requires fresh { without_stale request.now.now.0 self.old.locks ≡ self.old.locks }
        ensures ok { OnOk result (refusing self.old.locks (caller_of (request_of request.entry.now))
            (reach_check (segments path.now.bytes) deep ∷ []) ≡ []) }
        ensures err { IfErr result (RefusedBy self.old.locks (caller_of (request_of request.entry.now))
            (reach_check (segments path.now.bytes) deep ∷ [])) }
        ensures same { self.new ≡ self.old }
    {
        self.check_path_ref(request, &path.behind_prefix(), deep)
    }

    // The same of a lent path.
    fn check_path_ref(
        &mut self,
        request: &Request,
        path: &DavPathRef<'_>,
        deep: bool,
    ) -> Result<(), Refusal>
        requires fresh { without_stale request.now.now.0 self.old.locks ≡ self.old.locks }
        ensures ok { OnOk result (refusing self.old.locks (caller_of (request_of request.entry.now))
            (reach_check (segments path.now) deep ∷ []) ≡ []) }
        ensures err { IfErr result (RefusedBy self.old.locks (caller_of (request_of request.entry.now))
            (reach_check (segments path.now) deep ∷ [])) }
        ensures same { self.new ≡ self.old }
    {
        let principal = text_of(&request.principal);
        self.locks
            .check_ref(path, principal, false, deep, &request.tokens, request.now)?;
        Ok(())
    }
}

/// The text of an owned one, if there is one.
pub(super) fn text_of(text: &Option<String>) -> Option<&str>
    ensures { lent_text result ≡ option_map string_bytes text.now }
{
    match text {
        Some(text) => Some(text.as_str()),
        None => None,
    }
}
