//! The laws of a server behind a login, and of one that is read-only.
ghost use Rattle.std.specs.Prelude.{List};
ghost use Rattle.http_frames.specs.ConnectionEvents.{Event};
ghost use Rattle.turn_fronts.specs.declared.named.Named.{Named};
ghost use Rattle.turn_fronts.specs.declared.read_only.ReadOnly.{ReadOnly};
ghost use Rattle.dav_login_core.specs.declared.login.Login.{Login};
ghost use Rattle.dav_login_core.specs.LoginViews.{login};
ghost use Rattle.dav_handler_core.specs.declared.serving.Timed.{Timed};
ghost use Rattle.dav_handler_core.specs.KeptDocuments.{IsNew};
ghost use Rattle.dav_handler_core.specs.Server.{Server};
ghost use Rattle.dav_handler_core.specs.Serving.{timing};
ghost use Rattle.dav_handler_core.specs.TagHistories.{Becomes};
ghost use Rattle.dav_kept_core.specs.declared.recorded.Recorded.{Recorded};
ghost use Rattle.dav_kept_core.specs.BareServers.{as_served};
ghost use Rattle.dav_kept_core.specs.KeptServers.{kept_server};
ghost use Rattle.dav_front_core.specs.FrontRuns.{KeptLoginRun, KeptReadOnlyRun, PromisesBehind};
ghost use Rattle.dav_front_core.specs.FrontRuns.{StaysAsItWas, TimedLoginRun, TimedReadOnlyRun};

use dav_handler_core::serving::Clock;
use dav_login_core::Host;
use rand_core::Rng;

/// The law of a server behind a login (RFC 7617, RFC 4918 sections 6 and 7): whatever events lead the
/// login, from what new stores became, the server behind it answers those requests alone that are a
/// user's, by the users in force at each, or an OPTIONS that names nobody; each is answered as
/// `served_frames_keep_promises` says, under the principal that the login names; every other is
/// answered 401 or 429, and the server stays as it is. It does nothing.
pub fn logins_keep_promises<R: Rng, C: Clock, H: Host>()
    // Of a server in memory.
    ensures in_memory { (begun : Server) (old new : Login (Named (Timed R C)) H) (events : List Event)
        → IsNew begun → Becomes begun (timing R.stream old.service.service).server
        → TimedLoginRun R.stream C.tells H.told old events new
        → PromisesBehind C.tells H.told begun (login old).door (login old).host events (login new).door (login new).host
        (timing R.stream old.service.service) (timing R.stream new.service.service) }
    // Of one whose changes a journal keeps, as its clients see it.
    ensures kept { (begun : Server) (old new : Login (Named (Recorded R C)) H) (events : List Event)
        → IsNew begun → Becomes begun (as_served (kept_server R.stream old.service.service)).server
        → KeptLoginRun R.stream C.tells H.told old events new
        → PromisesBehind C.tells H.told begun (login old).door (login old).host events (login new).door (login new).host
        (as_served (kept_server R.stream old.service.service))
        (as_served (kept_server R.stream new.service.service)) }
{}

/// The law of a read-only server (own): whatever events lead it, its files, folders and properties
/// stay as they were, and its locks, but for those that have expired. It does nothing.
pub fn read_only_changes_nothing<R: Rng, C: Clock>()
    // Of a server in memory.
    ensures in_memory { (old new : Named (ReadOnly (Timed R C))) (events : List Event)
        → TimedReadOnlyRun R.stream C.tells old events new
        → StaysAsItWas (timing R.stream old.service.service).server (timing R.stream new.service.service).server }
    // Of one whose changes a journal keeps, as its clients see it.
    ensures kept { (old new : Named (ReadOnly (Recorded R C))) (events : List Event)
        → KeptReadOnlyRun R.stream C.tells old events new
        → StaysAsItWas (as_served (kept_server R.stream old.service.service)).server
        (as_served (kept_server R.stream new.service.service)).server }
{}
