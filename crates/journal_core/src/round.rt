//! The records of one round, before it is written.
ghost use Rattle.std.specs.Prelude.{◌≡◌, ◌-◌, ◌^◌, ◌++◌, ◌↔◌, [], ◌∷◌, List, ℕ, OnOk, OnErr, IsTrue, length, min};
ghost use Rattle.journal_core.specs.Format.{record_text, records_text, sum_of};
ghost use Rattle.journal_core.specs.Resting.{Carries};
ghost use Rattle.journal_core.specs.Private.Stages.{JoinsTail, round_bytes};

use crate::sum::begin_sum;
use bytes::Bytes;
use std::alloc::{AllocError, Global};
use std::hash::Hasher;
use std::mem;

/// From so many bytes on, the body of a record is shared and not copied.
const SHARED: usize = 16 * 1024;

/// The records of one round (own). Long bodies are shared with whoever handed them over, and not copied.
#[derive(Drop)]
pub struct Round {
    alloc: Global,
    pub(crate) parts: Vec<Part>,
    pub(crate) tail: Vec<u8>,
}

/// Bytes of a round, and then a long body.
#[derive(Drop)]
pub(crate) struct Part {
    pub(crate) own: Vec<u8>,
    pub(crate) body: Bytes,
}

impl Round {
    /// A round without records (own).
    pub fn new(alloc: Global) -> Round
        ensures { Carries result [] }
    {
        Round {
            alloc,
            parts: Vec::new(alloc),
            tail: Vec::new(alloc),
        }
    }

    /// Adds a record: these bytes, and then the body. At `Err` there was no memory for it, and the round has the records that it had.
    pub fn add(&mut self, head: &[u8], body: &Bytes) -> Result<(), AllocError>
        ensures adds { OnOk result ((records : List (List ℕ)) → Carries self.old records → Carries self.new (records ++ (head.now ++ body.now) ∷ [])) }
        ensures fails { OnErr result ((records : List (List ℕ)) → Carries self.old records → Carries self.new records) }
    {
        let before = self.tail.len();
        if let Err(error) = self.join(head, body) {
            self.tail.truncate(before);
            return Err(error);
        }
        Ok(())
    }

    // Adds the text of a record; at `Err` some of it may stand at the end of the tail.
    fn join(&mut self, head: &[u8], body: &Bytes) -> Result<(), AllocError>
        ensures adds { OnOk result (round_bytes self.new ≡ round_bytes self.old ++ record_text (head.now ++ body.now)) }
        ensures fails { OnErr result (JoinsTail self.old self.new) }
    {
        let len = head.len() as u64 + body.len() as u64;
        self.tail.extend_from_slice(&len.to_le_bytes())?;
        self.tail.extend_from_slice(head)?;
        if body.len() < SHARED {
            return self.tail.extend_from_slice(body);
        }
        let body = body.clone()?;
        let own = mem::replace(&mut self.tail, Vec::new(self.alloc));
        if let Err(refused) = self.parts.push(Part { own, body }) {
            self.tail = refused.value.own;
            return Err(AllocError);
        }
        Ok(())
    }

    /// How many bytes its records take in a round, which stops at `usize::MAX`: each its own, and eight.
    pub fn len(&self) -> usize
        ensures bytes { result ≡ min (length (round_bytes self.now)) (2 ^ 64 - 1) }
        ensures records { (records : List (List ℕ)) → Carries self.now records → result ≡ min (length (records_text records)) (2 ^ 64 - 1) }
    {
        let mut len = self.tail.len();
        'counting: for part in &self.parts {
            len = len
                .saturating_add(part.own.len())
                .saturating_add(part.body.len());
        }
        len
    }

    /// Whether it has no record.
    pub fn is_empty(&self) -> bool
        ensures { (records : List (List ℕ)) → Carries self.now records → IsTrue result ↔ (records ≡ []) }
    {
        self.len() == 0
    }

    // The sum of its bytes, which are so many, at this place.
    pub(crate) fn sum(&self, key: u64, place: usize, len: usize) -> u64
        requires { len ≡ length (round_bytes self.now) }
        ensures { result ≡ sum_of key place (round_bytes self.now) }
    {
        let mut hasher = begin_sum(key, place, len);
        'feeding: for part in &self.parts {
            hasher.write(&part.own);
            hasher.write(&part.body);
        }
        hasher.write(&self.tail);
        hasher.finish()
    }
}
