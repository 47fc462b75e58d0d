//! The laws of stores that are kept, over plain data. They do nothing.
ghost use Rattle.std.specs.Prelude.{◌≡◌, ◌<◌, ◌≤◌, ◌++◌, [], ◌∷◌, ℕ, List};
ghost use Rattle.std.specs.List.{flat_map};
ghost use Rattle.journal_core.specs.declared.header.Header.{Header};
ghost use Rattle.dav_notes_core.specs.Noting.{Noted};
ghost use Rattle.dav_notes_core.specs.PlayedNotes.{NotesLead};
ghost use Rattle.dav_notes_core.specs.Stepping.{SameLiveStores};
ghost use Rattle.dav_guarded_core.specs.Stores.{Stores, start_stores};
ghost use Rattle.dav_snapshots_core.specs.WrittenSnapshots.{HasPaths, IsSnapshot};
ghost use Rattle.dav_store_core.specs.StandingFor.{HaveRecords, AreRecords, StandFor};

/// The law of what is kept (own): behind records that stand for stores, the records of what requests
/// noted there, one after another, stand for the stores that they led to, but for locks that have
/// expired; and records stand for one state of the stores at most. Where a journal has the generation
/// 0, no records stand for a root folder alone; where it has a later one, the snapshot in front stands
/// for what it is of.
pub fn stores_come_back()
    ensures back { (h : Header) (old : List (List ℕ)) (base s : Stores) (from now : ℕ)
        (requests : List (List Noted)) (records : List (List ℕ)) → StandFor h old base from
        → AreRecords requests records
        → NotesLead from base (flat_map (λ ns. ns) requests) now s
        → (t : Stores) × (last : ℕ) × StandFor h (old ++ records) t last
        × SameLiveStores now s t × (last ≤ now) }
    ensures begins { (h : Header) → h.generation ≡ 0
        → StandFor h [] (start_stores h.began) h.began }
    ensures goes_on { (h : Header) (s : Stores) (last : ℕ) (bytes : List ℕ) → 0 < h.generation
        → IsSnapshot s last bytes → HasPaths s.map → StandFor h (bytes ∷ []) s last }
    ensures one { (h : Header) (s t : Stores) (last m : ℕ) (records : List (List ℕ))
        → StandFor h records s last → StandFor h records t m → (s ≡ t) × (last ≡ m) }
    ensures paths { (s : Stores) (last : ℕ) → HaveRecords s last → HasPaths s.map }
{}
