//! Who was let in, and from where: their guesses are paid by buckets of their own.
ghost use Rattle.std.specs.Prelude.{◌≡◌, ◌<◌, ◌≤◌, not, nat_eq, []};
ghost use Rattle.std.specs.List.{prefix_len};
ghost use Rattle.std.specs.VecDeque.{deque_len};
ghost use Rattle.dav_login_core.specs.Digests.{room_for_one};
ghost use Rattle.dav_login_core.specs.Friends.{LetsIn, payer_of, was_let_in, without_label};

use crate::labels::{label_of, label_of_name};
use crate::networks::Network;
use std::alloc::Global;
use std::collections::VecDeque;

// So many are kept.
const MOST: usize = 1_024;

// A day, in nanoseconds.
const DAY: u128 = 86_400_000_000_000;

/// Labels of names from networks that were let in, each with the moment when it was last, the last at the end.
#[derive(Drop)]
pub(crate) struct Friends {
    pub(crate) let_in: VecDeque<(u64, u64)>,
    ghost are_few: { deque_len let_in ≤ 1024 },
}

impl Friends {
    /// Nobody was let in.
    pub(crate) fn new(alloc: Global) -> Friends
        ensures { result.let_in.items ≡ [] }
    {
        Friends {
            let_in: VecDeque::new(alloc),
        }
    }

    /// The label whose bucket pays for a guess at the name from the network: that of both, where it was let in within a day, and else that of the network.
    pub(crate) fn payer_of(&self, key: &[u8; 32], network: Network, name: &str, now: u64) -> u64
        ensures { result ≡ payer_of key.now self.now.let_in.items network name.now now }
    {
        let label = label_of_name(key, network, name);
        if self.was_let_in(label, now) {
            label
        } else {
            label_of(key, network)
        }
    }

    fn was_let_in(&self, label: u64, now: u64) -> bool
        ensures { result ≡ was_let_in self.now.let_in.items label now }
    {
        self.let_in.iter().any(|seen| seen.0 == label
            && u128::from(now) <= u128::from(seen.1) + DAY)
    }

    /// Takes word that the name with this label was let in at this moment. It is not kept where there is no memory.
    pub(crate) fn note(&mut self, label: u64, now: u64)
        ensures { LetsIn label now self.old.let_in.items self.new.let_in.items }
    {
        self.take_out(label);
        self.make_room();
        let _kept = self.let_in.push_back((label, now));
    }

    fn take_out(&mut self, label: u64)
        ensures { self.new.let_in.items ≡ without_label label self.old.let_in.items }
    {
        let place = self.place_of(label);
        let _before = self.let_in.remove(place);
    }

    // How many stand before the first with this label.
    fn place_of(&self, label: u64) -> usize
        ensures { result ≡ prefix_len (λ seen. not (nat_eq seen.0 label)) self.now.let_in.items }
    {
        self.let_in
            .iter()
            .take_while(|seen| seen.0 != label)
            .count()
    }

    // Forgets the one unused for longest, where there are 1,024.
    fn make_room(&mut self)
        ensures room { deque_len self.new.let_in < 1024 }
        ensures let_in { self.new.let_in.items ≡ room_for_one self.old.let_in.items }
    {
        if self.let_in.len() >= MOST {
            let _unused = self.let_in.pop_front();
        }
    }
}
