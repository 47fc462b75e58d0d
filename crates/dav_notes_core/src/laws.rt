//! The laws of notes and of noted stores, over plain data. They do nothing.
ghost use Rattle.std.specs.Prelude.{◌≡◌, ◌≤◌, ℕ, List, [], true, ◌∷◌, ◌++◌, ◌&&◌, is_ok, Option, Ok, Err};
ghost use Rattle.rand_core.specs.Stream.{Stream};
ghost use Rattle.dav_guarded_core.specs.Requests as plain;
ghost use Rattle.dav_guarded_core.specs.Step.{Step};
ghost use Rattle.dav_guarded_core.specs.Stores.{Stores, state_of};
ghost use Rattle.dav_notes_core.specs.Ahead.{ahead, drawn_on, was_granted};
ghost use Rattle.dav_notes_core.specs.Asking.{Caller, asking};
ghost use Rattle.dav_notes_core.specs.Changes.{grants, is_look};
ghost use Rattle.dav_notes_core.specs.Noting.{Noted, drawn_for};
ghost use Rattle.dav_notes_core.specs.PlayedNotes.{NotesLead, NotesPlayed, NotePlayed, StopsAt};
ghost use Rattle.dav_notes_core.specs.Stepping.{AnsweredBy, Draws, SameLiveStores, left_by};

/// The law of steps (own): from stores that are the same but for locks that have expired, with the
/// same bytes, what is answered Ok leads to the same stores. Looks and refusals change nothing but
/// that; and what is the same but for locks that have expired stays so at any later moment. Each is
/// a step by any generator that gives those bytes.
pub fn steps_agree()
    ensures alike { (drawn : Option (List ℕ)) (s t s' t' : Stores) (r : plain.Request)
        (x y : plain.Reply) → SameLiveStores r.now s t → AnsweredBy drawn s r (Ok x) s'
        → AnsweredBy drawn t r (Ok y) t' → s' ≡ t' }
    ensures looks { (drawn : Option (List ℕ)) (s s' : Stores) (r : plain.Request)
        (a : plain.Answer) → is_look r.command ≡ true → AnsweredBy drawn s r a s'
        → SameLiveStores r.now s s' }
    ensures refused { (drawn : Option (List ℕ)) (s s' : Stores) (r : plain.Request)
        (e : plain.Refusal) → AnsweredBy drawn s r (Err e) s' → SameLiveStores r.now s s' }
    ensures later { (now later : ℕ) (s t : Stores) → now ≤ later → SameLiveStores now s t
        → SameLiveStores later s t }
    ensures step { (drawn : Option (List ℕ)) (s s' : Stores) (r : plain.Request)
        (a : plain.Answer) (g : Stream) → AnsweredBy drawn s r a s' → Draws r.command drawn g
        → Step (state_of s g) r a (state_of s' (left_by (grants r.command && is_ok a) g)) }
{}

/// The law of notes (own): how they go on, how they follow one another, and that each lead to the
/// same stores but for locks that have expired.
pub fn notes_lead()
    ensures on { (from now : ℕ) (s t t' : Stores) (ns : List Noted) (n : Noted)
        → NotesLead from s ns now t → now ≤ n.request.now → NotePlayed t n t'
        → NotesLead from s (ns ++ n ∷ []) n.request.now t' }
    ensures look { (from now later : ℕ) (s t t' : Stores) (ns : List Noted)
        → NotesLead from s ns now t → now ≤ later → SameLiveStores later t t'
        → NotesLead from s ns later t' }
    ensures join { (from mid now : ℕ) (s t u : Stores) (ns ms : List Noted)
        → NotesLead from s ns mid t → NotesLead mid t ms now u
        → NotesLead from s (ns ++ ms) now u }
    ensures played { (from now : ℕ) (s t u v : Stores) (ns : List Noted)
        → SameLiveStores from s u → NotesLead from s ns now t → NotesPlayed u ns v
        → SameLiveStores now t v }
    ensures playable { (from now : ℕ) (s t u : Stores) (ns : List Noted)
        → SameLiveStores from s u → NotesLead from s ns now t
        → (v : Stores) × NotesPlayed u ns v × SameLiveStores now t v }
    ensures damaged { (s s' t : Stores) (ns : List Noted) (number : ℕ)
        → StopsAt s ns number s' → ¬ NotesPlayed s ns t }
{}

/// The law of what is asked of noted stores (own): it is a step, by the generator that has the next
/// token's bytes ahead.
pub fn asked_is_a_step()
    ensures { (who : Caller) (c : plain.Command) (s s' : Stores) (answer : plain.Answer)
        (a b : List ℕ × Stream) → AnsweredBy (drawn_for c a.0) s (asking who c) answer s'
        → b ≡ drawn_on (was_granted c answer) a
        → Step (state_of s (ahead a)) (asking who c) answer (state_of s' (ahead b)) }
{}
