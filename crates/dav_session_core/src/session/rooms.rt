//! Why there is no room for the notes of requests, and what those of a lock cost.
ghost use Rattle.std.specs.Prelude.{◌≡◌, ◌+◌, ◌≤◌, ◌<◌, ℕ, Bool, List, Option, length, option_map};
ghost use Rattle.std.specs.Prelude.{string_bytes, true, false, if◌then◌else◌, IfErr, IsOk, OnErr, OnOk};
ghost use Rattle.dav_notes_core.specs.Asking.{sender_of};
ghost use Rattle.dav_notes_core.specs.Costs.{in_eight_bytes, cost_for};
ghost use Rattle.dav_path_core.specs.Segments.{segments};
ghost use Rattle.dav_guarded_core.specs.Requests.{Command as command};
ghost use Rattle.dav_session_core.specs.NoteCosts.{copies_cost, removal_cost};
ghost use Rattle.dav_session_core.specs.Sessions.{HasRoomForNotes, IsAsBefore, bytes_left, caller, noting};
ghost use Rattle.dav_session_core.specs.declared.session.rooms.RoomError.TheVariants as room_error;
ghost use Rattle.dav_session_core.specs.Unhindered.{ends_of, paths_of};

use super::Session;
use super::copying::Transfer;
use dav_faults_core::faults::Fault;
use dav_guarded_core::davpath::DavPath;
use dav_notes_core::costs::{cost_of_lock, cost_of_removal, cost_of_transfer, cost_of_unlock};
use dav_notes_core::senders::Sender;
use rand_core::Rng;

/// Why there is no room for the notes of requests (own).
#[derive(Drop)]
pub enum RoomError {
    /// There is no memory for them.
    OutOfMemory,
    /// They cost more bytes than are left.
    NoRoom,
}

impl From<RoomError> for Fault {
    ghost use Rattle.std.specs.Prelude.{◌≡◌};
    ghost use Rattle.dav_faults_core.specs.declared.faults.Fault.TheVariants.{InsufficientStorage};

    ghost from_gives = { λ _ fault. fault ≡ InsufficientStorage };

    /// Either way there is no storage for what is asked (RFC 4918 section 11.5).
    fn from(_: RoomError) -> Self {
        Fault::InsufficientStorage
    }
}

// The bytes of a lock's token, which is a URN (RFC 4918 section 6.5).
const TOKEN: usize = 45;

impl<R: Rng> Session<R> {
    /// Whether so many bytes are left beside those that the notes of taking places away cost (own).
    /// `NoRoom` alone, where they aren't.
    pub fn check_left(&self, places: &[DavPath], beside: u64) -> Result<(), RoomError>
        ensures ok { OnOk result ((n : ℕ) → beside ≡ in_eight_bytes n
            → (noting self.now).keeps ≡ true
            → removal_cost (caller self.now) (paths_of places.now) + n ≤ bytes_left self.now) }
        ensures err { OnErr result ((n : ℕ) → beside ≡ in_eight_bytes n
            → bytes_left self.now < removal_cost (caller self.now) (paths_of places.now) + n) }
    {
        if !self.stores.keeps() {
            return Ok(());
        }
        let bytes = sum_of(cost_of_removals(self.stores.who(), places), beside);
        if !self.stores.has_left(bytes) {
            return Err(RoomError::NoRoom);
        }
        Ok(())
    }

    /// How many bytes the notes of copying resources cost (own); `u64::MAX` where it is more, and 0
    /// where no notes are kept.
    pub fn copy_cost(&self, transfers: &[Transfer]) -> u64
        ensures { result ≡ (if (noting self.now).keeps then
            in_eight_bytes (copies_cost (caller self.now) (ends_of transfers.now)) else 0) }
    {
        if !self.stores.keeps() {
            return 0;
        }
        cost_of_copies(self.stores.who(), transfers)
    }

    /// How many bytes the note of moving a resource costs (own); `u64::MAX` where it is more, and 0
    /// where no notes are kept.
    pub fn move_cost(&self, from: &DavPath, to: &DavPath) -> u64
        ensures { result ≡ (if (noting self.now).keeps then in_eight_bytes (cost_for (caller self.now)
            (command.Move (segments from.now.bytes) (segments to.now.bytes))) else 0) }
    {
        if !self.stores.keeps() {
            return 0;
        }
        cost_of_transfer(self.stores.who(), from, to)
    }

    /// Makes room for the notes of granting the caller a lock and of taking it back, where notes are
    /// kept (own).
    ///
    /// - `OutOfMemory`: there is no memory for them.
    /// - `NoRoom`: not so many bytes are left.
    pub fn make_room_to_lock(
        &mut self,
        path: &DavPath,
        owner: &Option<String>,
    ) -> Result<(), RoomError>
        ensures ok { OnOk result ((timeout : Option ℕ) (shared deep : Bool) (token : List ℕ)
            → length token ≡ 45 → HasRoomForNotes 2
            (cost_for (caller self.new) (command.Unlock (segments path.now.bytes) token)
            + cost_for (caller self.new) (command.Lock path.now
            (option_map string_bytes owner.now) timeout shared deep)) self.new) }
        ensures no_room { IfErr result (λ e. e ≡ room_error.NoRoom → (timeout : Option ℕ)
            (shared deep : Bool) (token : List ℕ) → length token ≡ 45 → bytes_left self.old
            < cost_for (caller self.old) (command.Unlock (segments path.now.bytes) token)
            + cost_for (caller self.old) (command.Lock path.now
            (option_map string_bytes owner.now) timeout shared deep)) }
        ensures same { IsAsBefore R.stream self.old self.new }
        ensures sure { (noting self.old).keeps ≡ false → IsOk result }
    {
        if !self.stores.keeps() {
            return Ok(());
        }
        let bytes = self.lock_cost(path, owner);
        self.make_room(2, bytes)
    }

    // How many bytes the notes of granting the caller a lock and of taking it back cost; `u64::MAX`
    // where it is more.
    fn lock_cost(&self, path: &DavPath, owner: &Option<String>) -> u64
        ensures { (timeout : Option ℕ) (shared deep : Bool) (token : List ℕ) → length token ≡ 45
            → result ≡ in_eight_bytes
            (cost_for (caller self.now) (command.Unlock (segments path.now.bytes) token)
            + cost_for (caller self.now) (command.Lock path.now
            (option_map string_bytes owner.now) timeout shared deep)) }
    {
        let who = self.stores.who();
        let back = cost_of_unlock(who, path, TOKEN);
        sum_of(back, cost_of_lock(who, path, owner))
    }
}

/// How many bytes the notes of taking places away cost, each a request of the sender's.
pub(super) fn cost_of_removals(who: &Sender, places: &[DavPath]) -> u64
    ensures { result
        ≡ in_eight_bytes (removal_cost (sender_of who.entry.now) (paths_of places.now)) }
{
    let mut sum = 0u64;
    'adding: for place in places {
        sum = sum.saturating_add(cost_of_removal(who, place));
    }
    sum
}

// How many bytes the notes of the copies cost, each a request of the sender's.
fn cost_of_copies(who: &Sender, transfers: &[Transfer]) -> u64
    ensures { result
        ≡ in_eight_bytes (copies_cost (sender_of who.entry.now) (ends_of transfers.now)) }
{
    let mut sum = 0u64;
    'adding: for transfer in transfers {
        sum = sum.saturating_add(cost_of_transfer(who, &transfer.from, &transfer.to));
    }
    sum
}

// What both cost together.
fn sum_of(one: u64, other: u64) -> u64
    ensures { (n m : ℕ) → one ≡ in_eight_bytes n → other ≡ in_eight_bytes m
        → result ≡ in_eight_bytes (n + m) }
{
    one.saturating_add(other)
}
