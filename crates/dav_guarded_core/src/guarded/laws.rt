//! Laws of commands on the map and of holders of locks, over plain data.
ghost use Rattle.std.specs.Prelude.{◌≡◌, ℕ, List, [], ◌∷◌, ◌++◌, true, false, Result, Ok, Contains};
ghost use Rattle.std.specs.List.{AllByRecursion};
ghost use Rattle.dav_path_core.specs.declared.errors.FsError.{FsError};
ghost use Rattle.dav_path_core.specs.Fronts.{Path};
ghost use Rattle.dav_files_core.specs.Below.{AgreeBelow, SameBelow};
ghost use Rattle.dav_files_core.specs.Resources.{ResourceMap, IsResourceMap};
ghost use Rattle.dav_locks_core.specs.Exclusive.{Exclusive};
ghost use Rattle.dav_locks_core.specs.Lock.{Lock};
ghost use Rattle.dav_guarded_core.specs.Alone.{is_within, answers_under, HasRunAlone, IsLetIn, LastsThrough};
ghost use Rattle.dav_guarded_core.specs.Checks.{checks, IsApart};
ghost use Rattle.dav_guarded_core.specs.Isolation.{EachShape};
ghost use Rattle.dav_guarded_core.specs.Requests as plain;
ghost use Rattle.dav_guarded_core.specs.ResourceStep.{Does};
ghost use Rattle.dav_guarded_core.specs.Step.{State, Step, Run};

/// The law of the resource step at a folder (RFC 4918 section 5.2). What stands at and below it decides what a command within it answers,
/// and what that leaves there, numbers included. A command none of whose checks reaches at or below it leaves what is there.
pub fn commands_keep_to_folders()
    ensures below { (folder : Path) (m n m' : ResourceMap) (command : plain.Command) (now : ℕ) (result : Result plain.Reply FsError)
        → AgreeBelow folder m n → is_within folder command ≡ true → Does m command now result m'
        → (n' : ResourceMap) × Does n command now result n' × AgreeBelow folder m' n' }
    ensures apart { (folder : Path) (m m' : ResourceMap) (command : plain.Command) (now : ℕ) (reply : plain.Reply)
        → Does m command now (Ok reply) m' → ((s : Path) → IsApart (checks m command) (folder ++ s)) → SameBelow folder m m' }
{}

/// The law of who is alone (RFC 4918 section 7): no answer to a request under an exclusive deep lock shows a lock that is in the way. So a
/// `Guarded::run` that refused a holder, be it after a stranger's refused request, would break its own clause `alone`.
pub fn holders_are_let_in()
    ensures { (s : State) (requests : List plain.Request) (answers : List plain.Answer) (lock : Lock) → Exclusive s.locks → Contains s.locks lock
        → lock.shared ≡ false → lock.deep ≡ true → LastsThrough requests lock → HasRunAlone s requests answers lock → AllByRecursion IsLetIn (answers_under lock requests answers) }
{}

/// The law of runs that follow one another: from the state that one run leaves the next goes on, and both are one run; and one step is a
/// run. So who calls `Guarded::apply` request by request has every law of runs over the whole life of the stores.
pub fn runs_join()
    ensures join { (s mid end : State) (first second : List plain.Request) (early late : List plain.Answer)
        → Run s first early mid → Run mid second late end → Run s (first ++ second) (early ++ late) end }
    ensures step { (s end : State) (request : plain.Request) (answer : plain.Answer) → Step s request answer end → Run s (request ∷ []) (answer ∷ []) end }
{}

/// The law of the map's shape (RFC 4918 section 5): a run that starts from a resource map has one in each of its states, and at its end.
pub fn runs_keep_shape()
    ensures each { (s : State) (requests : List plain.Request) (answers : List plain.Answer) (end : State)
        → IsResourceMap s.map → Run s requests answers end → EachShape s requests answers end }
    ensures end { (s : State) (requests : List plain.Request) (answers : List plain.Answer) (end : State)
        → IsResourceMap s.map → Run s requests answers end → IsResourceMap end.map }
{}
