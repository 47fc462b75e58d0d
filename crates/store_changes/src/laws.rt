//! The law of imports, over plain data. It does nothing.
ghost use Rattle.std.specs.Prelude.{◌≡◌, ◌<◌, ◌≤◌, ◌++◌, [], ◌∷◌, ℕ, List};
ghost use Rattle.journal_core.specs.declared.header.Header.{Header};
ghost use Rattle.journal_core.specs.declared.round.Round.{Round};
ghost use Rattle.journal_core.specs.Resting.{Carries};
ghost use Rattle.dav_notes_core.specs.Stepping.{SameLiveStores};
ghost use Rattle.dav_guarded_core.specs.Stores.{Stores};
ghost use Rattle.dav_store_core.specs.StandingFor.{StandFor};
ghost use Rattle.store_changes.specs.Adding.{IsAdded, StaysLive};
ghost use Rattle.store_changes.specs.ImportedEntries.{Source};
ghost use Rattle.store_changes.specs.Importing.{IsImporting};

/// The law of imports (own): how they begin, how each entry that is added or left out goes on with them, that a round which is appended has its records made, and that the records of a journal with
/// those that were made stand for the stores, but for locks that have expired. It does nothing.
pub fn imports_are_kept()
    ensures begins { (s : Stores) (last : ℕ) (round : Round) → Carries round []
        → IsImporting s last [] (Carries round) s last }
    ensures adds { (base s t : Stores) (from last clock m : ℕ) (made : List (List ℕ)) (source : Source) (old new : Round)
        → IsImporting base from made (Carries old) s last
        → IsAdded s last clock source t m (λ bytes. (records : List (List ℕ)) → Carries old records → Carries new (records ++ bytes ∷ []))
        → IsImporting base from made (Carries new) t m }
    ensures leaves { (base s t : Stores) (from last m : ℕ) (made : List (List ℕ)) (old new : Round)
        → IsImporting base from made (Carries old) s last → StaysLive s last t m
        → ((records : List (List ℕ)) → Carries old records → Carries new records)
        → IsImporting base from made (Carries new) t m }
    ensures appends { (base s : Stores) (from last : ℕ) (made : List (List ℕ)) (old new : Round) → (i : IsImporting base from made (Carries old) s last)
        → Carries new [] → IsImporting base from (made ++ i.waiting) (Carries new) s last }
    ensures stands { (h : Header) (records made : List (List ℕ)) (base s : Stores) (from last : ℕ) (round : Round) → StandFor h records base from
        → (i : IsImporting base from made (Carries round) s last)
        → (t : Stores) × (m : ℕ) × StandFor h (records ++ (made ++ i.waiting)) t m × SameLiveStores last s t × (m ≤ last) }
{}
