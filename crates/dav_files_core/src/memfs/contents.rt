//! The bytes of a file, which its copies and what is read of it share.
ghost use Rattle.std.specs.Prelude.{◌≡◌, ◌+◌, ◌<◌, ◌≤◌, ◌^◌, [], length, max, IfOk, IfErr, IfSome, IfNone, OnOk, OnErr, MatchResult};
ghost use Rattle.dav_files_core.specs.OpenFiles.{overwritten_at, part};
ghost use Rattle.dav_files_core.specs.Private.Contents.{bytes_of};

use bytes::{Buf, Bytes, BytesMut};
use dav_path_core::errors::{FsError, FsResult};
use std::alloc::{AllocFailed, Global};
use std::marker::Model;
use std::mem;

/// The bytes of a file. A copy, or a part that is read, is another owner of the same memory; while nobody else owns any
/// of it, a write changes it where it is, and else changes a copy.
#[derive(Debug, Drop)]
pub(super) struct Content {
    held: Held,
}

// How bytes are held.
#[derive(Debug, Drop)]
enum Held {
    // They can be shared.
    Shared(Bytes),
    // They can't, since the memory for that was refused, and they are copied in place of it.
    Alone(BytesMut),
}

impl Model for Content {
    ghost use Rattle.std.specs.Prelude.{ℕ, List};
    ghost use Rattle.dav_files_core.specs.Private.Contents.{bytes_of};

    ghost Value = { List ℕ };

    ghost view = { λ c. bytes_of c.held };
}

impl Content {
    /// No bytes. It takes no memory.
    pub(super) fn new() -> Content
        ensures { result ≡ [] }
    {
        Content::from(Bytes::new())
    }

    /// A copy of bytes, in memory of their size.
    pub(super) fn copy_of(alloc: Global, bytes: &[u8]) -> FsResult<Content>
        ensures { MatchResult result (λ c. c ≡ bytes.now) (λ e. e ≡ FsError.InsufficientStorage) }
    {
        let bytes = Bytes::copy_from_slice(alloc, bytes)?;
        Ok(Content::from(bytes))
    }

    /// Those bytes, shared.
    pub(super) fn from(bytes: Bytes) -> Content
        ensures { result ≡ bytes }
    {
        Content {
            held: Held::Shared(bytes),
        }
    }

    // Bytes that nobody else owns, ready to be shared where there is memory for it.
    fn of(bytes: BytesMut) -> Content
        ensures { result ≡ bytes.items }
    {
        let held = match bytes.freeze() {
            Ok(bytes) => Held::Shared(bytes),
            Err(AllocFailed { value: bytes }) => Held::Alone(bytes),
        };
        Content { held }
    }

    pub(super) fn as_slice(&self) -> &[u8]
        ensures { result.now ≡ self.now }
    {
        match &self.held {
            Held::Shared(bytes) => bytes.as_slice(),
            Held::Alone(bytes) => bytes.as_slice(),
        }
    }

    pub(super) fn len(&self) -> usize
        ensures value { result ≡ length self.now }
        ensures bound { result < 2 ^ 63 }
    {
        self.as_slice().len()
    }

    /// The same bytes, shared.
    pub(super) fn again(&self, alloc: Global) -> FsResult<Content>
        ensures { MatchResult result (λ c. c ≡ self.now) (λ e. e ≡ FsError.InsufficientStorage) }
    {
        Ok(Content::from(self.shared(alloc)?))
    }

    /// The bytes alone, shared. They are copied where they can't be.
    pub(super) fn shared(&self, alloc: Global) -> FsResult<Bytes>
        ensures { MatchResult result (λ b. b ≡ self.now) (λ e. e ≡ FsError.InsufficientStorage) }
    {
        match &self.held {
            Held::Shared(bytes) => Ok(bytes.clone()?),
            Held::Alone(bytes) => Ok(Bytes::copy_from_slice(alloc, bytes.as_slice())?),
        }
    }

    /// Some of the bytes, `count` at most from `at` on, shared.
    pub(super) fn part(&self, alloc: Global, at: usize, count: usize) -> FsResult<Bytes>
        ensures answer { MatchResult result (λ b. b ≡ part self.now at count) (λ e. e ≡ FsError.InsufficientStorage) }
        ensures fits { IfOk result (λ b. at + length b < 2 ^ 64) }
    {
        let size = self.len();
        let start = at.min(size);
        let end = start + count.min(size - start);
        match &self.held {
            Held::Shared(bytes) => Ok(bytes.slice(start..end)?),
            Held::Alone(bytes) => Ok(Bytes::copy_from_slice(alloc, &bytes.as_slice()[start..end])?),
        }
    }

    /// Puts bytes over its own from a place on, with zeros in a gap.
    pub(super) fn overwrite<B: Buf>(
        &mut self,
        alloc: Global,
        start: usize,
        buf: &mut B,
    ) -> FsResult<()>
        requires { start + length (B.unread buf.old) < 2 ^ 64 }
        ensures ok { OnOk result (self.new ≡ overwritten_at self.old start (B.unread buf.old)) }
        ensures err { IfErr result (λ e. (e ≡ FsError.InsufficientStorage) × (self.new ≡ self.old)) }
        ensures spent { OnOk result (B.unread buf.new ≡ []) }
        ensures unread { OnErr result (buf.new ≡ buf.old) }
        ensures kept { B.kept buf.new ≡ B.kept buf.old }
    {
        let end = start + buf.remaining();
        let size = self.len().max(end);
        let mut bytes = self.opened(alloc, size)?;
        write_over(&mut bytes, size, start, end, buf);
        *self = Content::of(bytes);
        Ok(())
    }

    // The bytes, to be written up to a size with no more memory. Refused, it leaves them as they were.
    fn opened(&mut self, alloc: Global, size: usize) -> FsResult<BytesMut>
        ensures ok { IfOk result (λ b. (b.items ≡ self.old) × (size ≤ length b.items + b.spare)) }
        ensures err { IfErr result (λ e. (e ≡ FsError.InsufficientStorage) × (self.new ≡ self.old)) }
    {
        match self.taken(size) {
            Some(bytes) => Ok(bytes),
            None => copied(alloc, self.as_slice(), size),
        }
    }

    // The bytes themselves, where nobody else owns any of them and there is room up to a size. Else they stay.
    fn taken(&mut self, size: usize) -> Option<BytesMut>
        ensures some { IfSome result (λ b. (b.items ≡ self.old) × (size ≤ length b.items + b.spare)) }
        ensures none { IfNone result (self.new ≡ self.old) }
    {
        let held = mem::replace(&mut self.held, Held::Shared(Bytes::new()));
        match alone(held) {
            Ok(mut bytes) => {
                if bytes.try_reclaim(size.saturating_sub(bytes.len())) {
                    return Some(bytes);
                }
                *self = Content::of(bytes);
                None
            }
            Err(bytes) => {
                self.held = Held::Shared(bytes);
                None
            }
        }
    }
}

// Bytes that nobody else owns any of, or the same, shared.
fn alone(held: Held) -> Result<BytesMut, Bytes>
    ensures { MatchResult result (λ b. b.items ≡ bytes_of held) (λ b. b ≡ bytes_of held) }
{
    match held {
        Held::Shared(bytes) => bytes.try_into_mut(),
        Held::Alone(bytes) => Ok(bytes),
    }
}

// A copy of bytes with room up to a size. Where that is more, the room is half as much again at least, so that many
// small writes at the end take few copies.
fn copied(alloc: Global, bytes: &[u8], size: usize) -> FsResult<BytesMut>
    ensures ok { IfOk result (λ b. (b.items ≡ bytes.now) × (size ≤ length b.items + b.spare)) }
    ensures err { IfErr result (λ e. e ≡ FsError.InsufficientStorage) }
{
    let room = room_for(bytes.len(), size);
    let mut copy = Vec::with_capacity(alloc, room)?;
    copy.extend_from_slice(bytes)?;
    let mut copy = BytesMut::from_vec(copy);
    copy.reserve(size.saturating_sub(bytes.len()))?;
    Ok(copy)
}

// How many bytes there is to be room for, where there are `old` and will be `new`.
fn room_for(old: usize, new: usize) -> usize {
    if new <= old {
        return old;
    }
    new.max(old.saturating_add(old / 2))
}

// Puts bytes over others from `start` to `end`, of which there are `size` then.
fn write_over<B: Buf>(bytes: &mut BytesMut, size: usize, start: usize, end: usize, buf: &mut B)
    requires end { end ≡ start + length (B.unread buf.old) }
    requires size { size ≡ max (length bytes.old.items) end }
    requires room { size ≤ length bytes.old.items + bytes.old.spare }
    ensures bytes { bytes.new.items ≡ overwritten_at bytes.old.items start (B.unread buf.old) }
    ensures spent { B.unread buf.new ≡ [] }
    ensures kept { B.kept buf.new ≡ B.kept buf.old }
{
    match bytes.resize(size, 0) {
        Ok(()) => buf.copy_to_slice(&mut bytes.as_mut_slice()[start..end]),
        Err(_) => unreachable!(),
    }
}
