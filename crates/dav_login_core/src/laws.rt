//! What the contracts lead to.
ghost use Rattle.std.specs.Prelude.{◌≡◌, ◌<◌, ◌≤◌, ◌+◌, ◌*◌, ◌^◌, ℕ, List, length};
ghost use Rattle.http_server.specs.Exchange.{Call, Chain};
ghost use Rattle.http_frames.specs.ConnectionEvents.{Event};
ghost use Rattle.http_frames.specs.Gate.{IsTold};
ghost use Rattle.dav_login_core.specs.CallsBehind.{LeadsBehind, TurnsBehind};
ghost use Rattle.dav_login_core.specs.Digests.{message};
ghost use Rattle.dav_login_core.specs.GuessRuns.{GuessEvent, Happen, hash_count, wrong_of, wrong_of_strangers};
ghost use Rattle.dav_login_core.specs.Guessing.{GuessState, second};
ghost use Rattle.dav_login_core.specs.LoggedIn.{HandsOn, LoggedIn};
ghost use Rattle.dav_login_core.specs.LoginViews.{login};
ghost use Rattle.dav_login_core.specs.RunsBehind.{LoginRun, RunsBehind};
ghost use Rattle.dav_login_core.specs.declared.login.Login.{Login};

use crate::watching::Host;
use http_frames::gate::TurnService;
use http_server::Service;

/// The law that what is digested tells the name and the password (own): where two digests under one key are the same, either name and password are, or two messages have one sum by SHA-256. It does
/// nothing.
#[tactic(auto, using(crate::proofs::MessageLemmas::message_tells))]
pub fn messages_tell_names_and_passwords()
    ensures { (key name password name' password' : List ℕ) → length name < 2 ^ 64
        → length name' < 2 ^ 64 → message key name password ≡ message key name' password'
        → (name ≡ name') × (password ≡ password') }
{}

/// The law of calls (own): whatever requests a login is asked, the service behind it is asked those alone that are an OPTIONS without `Authorization`, each as nobody's, or that send a name and a
/// password that are accepted, each as that user's; all others are answered 401, or 429 where they send a name and a password. It does nothing.
pub fn calls_lead_behind<S: Service, H>()
    ensures { (old new : Login S H) (calls : List Call)
        → Chain (λ before request response after. LoggedIn S.answers (login before) request response (login after)) old calls new
        → LeadsBehind S.answers (login old) calls (login new) }
{}

/// The law of a turn (own): where a login is told of a turn, the service behind it is, and makes the calls behind the login's. It does nothing.
pub fn turns_lead_behind<S: TurnService, H>()
    ensures { (old new : Login S H) (number : ℕ) (calls : List Call)
        → IsTold (λ before n after. HandsOn S.begins (login before) n (login after))
        (λ before request response after. LoggedIn S.answers (login before) request response (login after)) old number calls new
        → TurnsBehind S.begins S.answers (login old) number calls (login new) }
{}

/// The law of whole runs (own): over any events that lead a login from one state to another, while files of users come, the service behind it is led by the same events with those calls alone that
/// were passed on. A call is passed on as a user's only where it sends a name and a password that are accepted by the users in force at it, as nobody's only where it is an OPTIONS without
/// `Authorization`; each other is answered 401, or 429 where it sends a name and a password, and the service is not asked. The users stay at a file only where the host is told why. It does nothing.
pub fn runs_lead_behind<S: TurnService, H: Host>()
    ensures { (old new : Login S H) (events : List Event)
        → LoginRun S.begins S.answers S.clocked S.listed H.told old events new
        → RunsBehind S.begins S.answers S.clocked S.listed H.told (login old) events (login new) }
{}

/// The law of limits (own). In some seconds, whatever else happens, no more passwords are hashed than twenty and twenty for each second, of all labels together; and of these no more are wrong than
/// five and as many as the seconds, of each label that has a bucket of its own, and of all others together. It does nothing.
pub fn few_guesses_are_let_through()
    ensures hashed { (old new : GuessState) (events : List GuessEvent) (seconds : ℕ) → Happen events old new
        → new.latest ≤ old.latest + seconds * second → hash_count events ≤ 20 + 20 * seconds }
    ensures own { (old new : GuessState) (events : List GuessEvent) (label seconds : ℕ) → Happen events old new
        → new.latest ≤ old.latest + seconds * second → wrong_of label events ≤ 5 + seconds }
    ensures strangers { (old new : GuessState) (events : List GuessEvent) (seconds : ℕ) → Happen events old new
        → new.latest ≤ old.latest + seconds * second → wrong_of_strangers events ≤ 5 + seconds }
{}
