//! The laws of servers that are kept, over plain data. They do nothing.
ghost use Rattle.std.specs.Prelude.{◌≡◌, ◌≤◌, ℕ, List};
ghost use Rattle.dav_notes_core.specs.Stepping.{SameLiveStores};
ghost use Rattle.dav_guarded_core.specs.Stores.{Stores};
ghost use Rattle.dav_store_core.specs.StandingFor.{StandFor};
ghost use Rattle.dav_kept_core.specs.KeptServers.{KeptServer, StandsForServer, stores_in};

/// The law of what opens again (own): records that stand for a server stand for stores that are equal
/// to its own but for locks that have expired, and for no others. It does nothing.
pub fn stores_open_again<C>()
    ensures back { (records : List (List ℕ)) (s : KeptServer C) → StandsForServer records s
        → (t : Stores) × (last : ℕ) × StandFor s.header records t last
        × SameLiveStores s.timing.server.last (stores_in s.timing.server) t
        × (last ≤ s.timing.server.last) }
    ensures one { (records : List (List ℕ)) (s : KeptServer C) (t : Stores) (last : ℕ)
        → StandsForServer records s → StandFor s.header records t last
        → SameLiveStores s.timing.server.last (stores_in s.timing.server) t
        × (last ≤ s.timing.server.last) }
{}
