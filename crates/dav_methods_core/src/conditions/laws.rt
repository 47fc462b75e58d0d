//! Laws of conditions, for callers.
ghost use Rattle.std.specs.Prelude.{◌≡◌, ◌≢◌, ℕ, Bool, true, false, List, [], ◌∷◌, None, Option};
ghost use Rattle.std.specs.Prelude.{Some, Contains, bytes_eq};
ghost use Rattle.std.specs.List.{AllByRecursion, IsDistinct, flat_map, list_any};
ghost use Rattle.dav_path_core.specs.Fronts.{Path};
ghost use Rattle.dav_headers_core.specs.IfBytes.{Token};
ghost use Rattle.dav_headers_core.specs.IfValues.{Located};
ghost use Rattle.dav_locks_core.specs.Lock.{Lock};
ghost use Rattle.dav_locks_core.specs.Locks.{covers};
ghost use Rattle.dav_guarded_core.specs.Step.{State};
ghost use Rattle.dav_session_core.specs.Conditions.{IfIs, Production, ProductionsAre};
ghost use Rattle.dav_session_core.specs.Conditions.{conditions_hold, lists_of};
ghost use Rattle.dav_fields_core.specs.IfTokens.{is_among, tokens_in, tokens_of};
ghost use Rattle.dav_fields_core.specs.TaggedLists.{Base};

/// The law that an `If` either holds or doesn't. It does nothing.
pub fn one_truth()
    ensures { (s : State) (base : Base) (here : Path) (lists : List Located) (holds also : Bool)
        → IfIs s base here lists holds → IfIs s base here lists also → holds ≡ also }
{}

/// The law that a list of one token that holds shows a lock that covers the resource (RFC 4918
/// section 10.4.4). It does nothing.
pub fn held_token_shows_a_lock()
    ensures { (s : State) (p : Path) (token : List ℕ)
        → conditions_hold s (Some p) (record { negated = false; item = Token token } ∷ []) ≡ true
        → (l : Lock) × Contains s.locks l × (l.token ≡ token) × (covers l p ≡ true) }
{}

/// The law that a list of `Not` and a token that no lock has holds, whatever stands there (RFC 4918
/// section 10.4.8). It does nothing.
pub fn not_of_no_lock_holds()
    ensures { (s : State) (at : Option Path) (token : List ℕ)
        → ((l : Lock) → Contains s.locks l → l.token ≢ token)
        → conditions_hold s at (record { negated = true; item = Token token } ∷ []) ≡ true }
{}

/// The law that an `If` without tags holds where one of its lists does for the resource of the
/// request (RFC 4918 sections 10.4.3 and 10.4.4). It does nothing.
pub fn untagged_lists_are_of_the_request()
    ensures { (s : State) (base : Base) (here : Path) (lists : List Located)
        → AllByRecursion (λ l. l.tag ≡ None) lists
        → IfIs s base here lists
        (list_any (λ l. conditions_hold s (Some here) l.conditions) lists) }
{}

/// The law that an `If` of tags, each with its lists behind it, holds where one of these lists does
/// for the resource that its tag names (RFC 4918 sections 10.4.3 and 10.4.4). It does nothing.
pub fn tagged_lists_are_of_their_tags()
    ensures { (s : State) (base : Base) (here : Path) (productions : List Production) (holds : Bool)
        → ProductionsAre s base here productions holds
        → IfIs s base here (flat_map lists_of productions) holds }
{}

/// The law that the state tokens of an `If` are those of its conditions, and that none stands
/// twice. It does nothing.
pub fn tokens_stand_once()
    ensures { (lists : List Located) → IsDistinct bytes_eq (tokens_of lists)
        × ((token : List ℕ) → is_among (tokens_of lists) token
        ≡ is_among (flat_map (λ l. tokens_in l.conditions) lists) token) }
{}
