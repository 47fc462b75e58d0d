//! Names and passwords that were accepted or refused, by their digests under a key.
ghost use Rattle.std.specs.Prelude.{◌≡◌, ◌<◌, ◌≤◌, ◌++◌, ℕ, List, [], All, IsTrue, true, length, string_bytes};
ghost use Rattle.std.specs.VecDeque.{deque_len};
ghost use Rattle.sha2.specs.Hashers.{Holds256};
ghost use Rattle.dav_users_core.specs.Users.{hash_named, users_in};
ghost use Rattle.dav_login_core.specs.Digests.{Learns, NotesRefused, Retains, WasAcceptedOf, WasRefused, digest, is_known, is_refused, known_place, moved_to_end, room_for_one, with_length};

use crate::known::Known;
use dav_users_core::Users;
use sha2::{Digest, Sha256};
use std::alloc::Global;
use std::collections::VecDeque;

// So many digests are kept of what was accepted, and as many of what was refused.
const MOST: usize = 1_024;

/// Users, what of theirs was accepted, what was used last at the end, and what was sent in vain.
#[derive(Drop)]
pub(crate) struct Accepted {
    pub(crate) users: Users,
    pub(crate) key: [u8; 32],
    pub(crate) known: VecDeque<Known>,
    // Labels of networks, each with the digest of what came from it.
    pub(crate) refused: VecDeque<(u64, [u8; 32])>,
    ghost are_accepted: { All (λ k. WasAcceptedOf (users_in users) key (string_bytes k.name) k.digest) known.items },
    ghost are_refused: { All (λ r. WasRefused (users_in users) key r.1) refused.items },
    ghost are_few: { deque_len known ≤ 1024 },
    ghost were_few: { deque_len refused ≤ 1024 },
}

impl Accepted {
    /// The users, and no digest.
    pub(crate) fn new(alloc: Global, users: Users, key: [u8; 32]) -> Accepted
        ensures users { result.users ≡ users }
        ensures key { result.key ≡ key }
        ensures known { result.known.items ≡ [] }
    {
        Accepted {
            users,
            key,
            known: VecDeque::new(alloc),
            refused: VecDeque::new(alloc),
        }
    }

    /// The digest of a name and a password.
    #[tactic(auto, unfolding(crate::specs::Digests::digest))]
    pub(crate) fn digest(&self, name: &str, password: &str) -> [u8; 32]
        ensures { result ≡ digest self.now.key name.now password.now }
    {
        let mut hash = Sha256::new();
        hash.update(&self.key);
        add_counted(&mut hash, name.as_bytes());
        add_counted(&mut hash, password.as_bytes());
        hash.finalize()
    }

    /// Whether the digest is kept of what was accepted.
    pub(crate) fn knows(&self, digest: &[u8; 32]) -> bool
        ensures { result ≡ is_known self.now.known.items digest.now }
    {
        self.known.iter().any(|known| known.digest == *digest)
    }

    /// Whether the digest is kept of what was sent in vain from this label.
    pub(crate) fn was_refused(&self, label: u64, digest: [u8; 32]) -> bool
        ensures value { result ≡ is_refused self.now.refused.items label digest }
        ensures refused { IsTrue result → WasRefused (users_in self.now.users) self.now.key digest }
    {
        self.refused.contains(&(label, digest))
    }

    /// Keeps what was accepted, and drops the one unused for longest where there are 1,024. It is not kept where there is no memory.
    pub(crate) fn keep(&mut self, accepted: Known)
        requires { WasAcceptedOf (users_in self.old.users) self.old.key (string_bytes accepted.name) accepted.digest }
        ensures users { self.new.users ≡ self.old.users }
        ensures key { self.new.key ≡ self.old.key }
        ensures learns { Learns accepted.digest self.old.known.items self.new.known.items }
    {
        self.make_room();
        let _kept = self.known.push_back(accepted);
    }

    /// Puts what was accepted at the end, where it is known by this digest.
    pub(crate) fn use_again(&mut self, digest: &[u8; 32])
        ensures users { self.new.users ≡ self.old.users }
        ensures key { self.new.key ≡ self.old.key }
        ensures known { self.new.known.items ≡ moved_to_end digest.now self.old.known.items }
    {
        let place = self.place_of(digest);
        match self.known.remove(place) {
            Some(known) => {
                let _kept = self.known.push_back(known);
            }
            None => {}
        }
    }

    // How many stand before the first of this digest.
    fn place_of(&self, digest: &[u8; 32]) -> usize
        ensures { result ≡ known_place self.now.known.items digest.now }
    {
        self.known
            .iter()
            .take_while(|known| known.digest != *digest)
            .count()
    }

    // Drops the one unused for longest of what was accepted, where there are 1,024.
    fn make_room(&mut self)
        ensures users { self.new.users ≡ self.old.users }
        ensures key { self.new.key ≡ self.old.key }
        ensures room { deque_len self.new.known < 1024 }
        ensures known { self.new.known.items ≡ room_for_one self.old.known.items }
    {
        if self.known.len() >= MOST {
            let _unused = self.known.pop_front();
        }
    }

    /// Keeps the digest of what was sent in vain from a label, and drops the oldest where there are 1,024. It is not kept where there is no memory.
    pub(crate) fn note_refused(&mut self, label: u64, digest: [u8; 32])
        requires { WasRefused (users_in self.old.users) self.old.key digest }
        ensures users { self.new.users ≡ self.old.users }
        ensures key { self.new.key ≡ self.old.key }
        ensures known { self.new.known.items ≡ self.old.known.items }
        ensures notes { NotesRefused label digest self.old.refused.items self.new.refused.items }
    {
        self.make_room_refused();
        let _kept = self.refused.push_back((label, digest));
    }

    // Drops the oldest of what was refused, where there are 1,024.
    fn make_room_refused(&mut self)
        ensures users { self.new.users ≡ self.old.users }
        ensures key { self.new.key ≡ self.old.key }
        ensures room { deque_len self.new.refused < 1024 }
        ensures known { self.new.known.items ≡ self.old.known.items }
        ensures refused { self.new.refused.items ≡ room_for_one self.old.refused.items }
    {
        if self.refused.len() >= MOST {
            let _oldest = self.refused.pop_front();
        }
    }

    /// From now on the users are these. Of what was accepted there stays what is of users with the same line as before, and nothing of what was refused.
    pub(crate) fn list(&mut self, alloc: Global, users: Users)
        ensures users { self.new.users ≡ users }
        ensures key { self.new.key ≡ self.old.key }
        ensures known { Retains (λ k. hash_named (users_in self.old.users) (string_bytes k.name) ≡ hash_named (users_in users) (string_bytes k.name))
            self.old.known.items self.new.known.items }
    {
        self.refused = VecDeque::new(alloc);
        let before = &self.users;
        self.known
            .retain(|known| before.has_same(&users, known.name.as_str()));
        self.users = users;
    }
}

/// Adds the number of the bytes, and the bytes.
pub(crate) fn add_counted(hash: &mut Sha256, bytes: &[u8])
    ensures { (m : List ℕ) → Holds256 hash.old m → Holds256 hash.new (m ++ with_length bytes.now) }
{
    hash.update(&(bytes.len() as u64).to_le_bytes());
    hash.update(bytes);
}
