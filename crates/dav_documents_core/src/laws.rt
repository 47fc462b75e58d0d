//! The laws of what is told of refusals and of locks, and of what is kept of properties. They do nothing.
ghost use Rattle.std.specs.Prelude.{◌≡◌, ◌+◌, ◌*◌, ◌<◌, ◌^◌, ℕ, Bool, codes, decimal, length, List, ◌++◌, Option, Some};
ghost use Rattle.dav_path_core.specs.PathText.{PathText};
ghost use Rattle.dav_locks_core.specs.Lock.{Lock};
ghost use Rattle.dav_locks_core.specs.Locks.{refreshed_lock};
ghost use Rattle.dav_locks_core.specs.NewLock.{new_lock};
ghost use Rattle.dav_faults_core.specs.declared.faults.Fault.{Fault};
ghost use Rattle.dav_documents_core.specs.LockDocuments.{lock_timeout_text};
ghost use Rattle.dav_documents_core.specs.LockInfos.{LockInfo, lock_info_in};
ghost use Rattle.dav_documents_core.specs.PropertyUpdates.{Update, updates_in};
ghost use Rattle.dav_documents_core.specs.RefusalReading.{HasPath, IsReadAsTold};
ghost use Rattle.dav_documents_core.specs.SentOwners.{IsSentOwner};
ghost use Rattle.dav_documents_core.specs.SentUpdates.{AreSentUpdates};

/// The law of what a refusal tells (RFC 4918 section 16): its document, where it has one, is read from the bytes that are told of it, if the path that it
/// tells begins with a slash, as each path that is read does. It does nothing.
pub fn refusals_are_read()
    ensures { (prefix : List ℕ) (e : Fault) → HasPath e → IsReadAsTold prefix e }
{}

/// The law of what a PROPPATCH asks for and what is kept of it (RFC 4918 sections 4.4 and 9.2): the properties of its body, each at its place there, in order
/// and with none left out. What is kept of one that is set is written of its element, in the language around it, and is read as this. It does nothing.
pub fn kept_properties_are_read()
    ensures { (body : List ℕ) (updates : List Update) → length body < 2 ^ 64 → updates_in body ≡ Some updates → AreSentUpdates body updates }
{}

/// The law of what a LOCK keeps of its owner (RFC 4918 section 14.17): it is written of the one `owner` right in the `lockinfo` of its body, in the language
/// around it, and is read as this. It does nothing.
pub fn kept_owners_are_read()
    ensures { (body : List ℕ) (info : LockInfo) → length body < 2 ^ 64 → lock_info_in body ≡ Some info → IsSentOwner body info.owner }
{}

/// The law of what is told of a new end (RFC 4918 section 14.29): a lock that is granted, or refreshed, for so many seconds is told to stand for these, unless its end would
/// pass the greatest moment. It does nothing.
pub fn new_ends_are_told()
    ensures granted { (token : List ℕ) (path : PathText) (principal owner : Option (List ℕ)) (seconds : ℕ) (shared deep : Bool) (now : ℕ) → now + seconds * 1000000000 < 2 ^ 64
        → lock_timeout_text now (new_lock token path principal owner (Some seconds) shared deep now) ≡ codes "Second-" ++ decimal seconds }
    ensures refreshed { (l : Lock) (seconds now : ℕ) → now + seconds * 1000000000 < 2 ^ 64
        → lock_timeout_text now (refreshed_lock now (Some seconds) l) ≡ codes "Second-" ++ decimal seconds }
{}
