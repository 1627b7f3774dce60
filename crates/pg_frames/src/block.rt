//! The bytes that a reader was fed, in blocks of memory that the bodies share.

ghost use Rattle.std.specs.Prelude.{◌≡◌, ◌≢◌, ◌<◌, ◌≤◌, ◌++◌, [], length, take, drop, IfOk, OnOk, OnErr};

use bytes::{Bytes, BytesMut};
use std::alloc::{AllocError, Global};
use std::marker::Model;
use std::mem;

/// The most bytes of a block of memory that are kept whether they are needed or not.
const MAX_KEPT: usize = 64 * 1024;

/// The most bytes that a block grows by although fewer are needed.
const MAX_STEP: usize = 4 * 1024;

/// The bytes that were fed and not yet taken. In a contract it is the list of them.
///
/// A body that is taken shares the block of memory that its bytes were fed into, and keeps that block
/// until it is dropped. Memory is asked for as bytes are fed, so there are at most twice the bytes that
/// were fed and not taken, and the block that is filled. A block is used again once no body shares it.
/// What is left after the last whole message is copied at most once when more is fed. Where a block is
/// full, room is asked for as large as the block, up to 4 KiB, so that small pieces ask seldom.
/// A block of up to 64 KiB is kept. A larger one is given back as soon as all is taken and, since all was
/// taken before, at most 64 KiB were held at once.
#[derive(Drop)]
pub(crate) struct Block {
    alloc: Global,
    // The front of what was fed, from which bodies are cut. While it holds bytes the buffer is empty.
    shared: Bytes,
    buffer: BytesMut,
    // How many bytes a shared block has had room for at most, since a block was given back.
    most: usize,
    // How many bytes were held at most when some were shared, since all was taken.
    held: usize,
}

impl Model for Block {
    ghost use Rattle.std.specs.Prelude.{◌≡◌, ◌<◌, ℕ, List, [], ◌++◌, length};

    ghost Value = { List ℕ };

    ghost view = { λ block. block.shared ++ block.buffer.items };

    ghost invariant = { λ block. 0 < length block.shared → block.buffer.items ≡ [] };
}

impl Block {
    /// No bytes. It takes no memory.
    pub(crate) fn new(alloc: Global) -> Self
        ensures { result ≡ [] }
    {
        Block {
            alloc,
            shared: Bytes::new(),
            buffer: BytesMut::new(alloc),
            most: 0,
            held: 0,
        }
    }

    /// The bytes that were fed and not yet taken.
    #[inline(always)]
    pub(crate) fn bytes(&self) -> &[u8]
        ensures { result.now ≡ self.now }
    {
        if self.shared.is_empty() {
            self.buffer.as_slice()
        } else {
            self.shared.as_slice()
        }
    }

    /// How many bytes were fed and not yet taken.
    #[inline(always)]
    pub(crate) fn len(&self) -> usize
        ensures { result ≡ length self.now }
    {
        self.shared.len() + self.buffer.len()
    }

    /// Adds bytes, or is out of memory and changes nothing. No bytes need no memory.
    // Inlined, so that a small piece costs two tests and a copy.
    #[inline(always)]
    pub(crate) fn feed(&mut self, bytes: &[u8]) -> Result<(), AllocError>
        ensures ok { OnOk result (self.new ≡ self.old ++ bytes.now) }
        ensures err { OnErr result (self.new ≡ self.old) }
        ensures some { OnErr result (bytes.now ≢ []) }
    {
        if bytes.is_empty() {
            return Ok(());
        }
        if !self.shared.is_empty() {
            unshare(self.alloc, &mut self.shared, &mut self.buffer, bytes.len())?;
        }
        if self.buffer.capacity() - self.buffer.len() < bytes.len() {
            grow(&mut self.buffer, self.most, bytes.len())?;
        }
        self.buffer.extend_reserved(bytes);
        Ok(())
    }

    /// Takes the bytes up to `end`, and gives those of them that stand after the first `head`. Where
    /// memory runs out it changes nothing.
    #[inline(always)]
    pub(crate) fn take(&mut self, head: usize, end: usize) -> Result<Bytes, AllocError>
        requires { (head ≤ end) × (end ≤ length self.old) }
        ensures body { IfOk result (λ body. body ≡ drop head (take end self.old)) }
        ensures rest { OnOk result (self.new ≡ drop end self.old) }
        ensures err { OnErr result (self.new ≡ self.old) }
    {
        if self.shared.is_empty() {
            self.most = self.most.max(self.buffer.capacity());
            self.held = self.held.max(self.buffer.len());
            share(&mut self.shared, &mut self.buffer, end)?;
        }
        let body = take_body(&mut self.shared, head, end)?;
        self.give_back();
        Ok(body)
    }

    // Where all is taken, lets go of a large block that wasn't needed for what was held.
    #[inline(always)]
    fn give_back(&mut self)
        ensures { self.new ≡ self.old }
    {
        if self.len() > 0 {
            return;
        }
        if self.most > MAX_KEPT && self.held <= MAX_KEPT {
            self.shared = Bytes::new();
            self.buffer = BytesMut::new(self.alloc);
            self.most = 0;
        }
        self.held = 0;
    }
}

// Moves the bytes to the shared ones, at least those up to `end`. What follows them stays where more can
// be added, if it is less than what it follows.
#[inline(never)]
fn share(shared: &mut Bytes, buffer: &mut BytesMut, end: usize) -> Result<(), AllocError>
    requires none { shared.old ≡ [] }
    requires within { end ≤ length buffer.old.items }
    ensures all { OnOk result (shared.new ++ buffer.new.items ≡ buffer.old.items) }
    ensures long { OnOk result (end ≤ length shared.new) }
    ensures left { OnOk result (end < length shared.new → buffer.new.items ≡ []) }
    ensures err { OnErr result ((shared.new ≡ shared.old) × (buffer.new ≡ buffer.old)) }
{
    let all = buffer.len();
    let count = if all - end < end { end } else { all };
    *shared = buffer.freeze_to(count)?;
    Ok(())
}

// Takes the bytes up to `end`, and gives those after the first `head`.
fn take_body(shared: &mut Bytes, head: usize, end: usize) -> Result<Bytes, AllocError>
    requires { (head ≤ end) × (end ≤ length shared.old) }
    ensures body { IfOk result (λ body. body ≡ drop head (take end shared.old)) }
    ensures rest { OnOk result (shared.new ≡ drop end shared.old) }
    ensures err { OnErr result (shared.new ≡ shared.old) }
    ensures memory { OnErr result ((head < end) × (end < length shared.old)) }
{
    if end == head {
        shared.advance(head);
        if shared.is_empty() {
            // No bytes would keep the block from being used again.
            *shared = Bytes::new();
        }
        return Ok(Bytes::new());
    }
    let mut body = shared.split_to(end)?;
    body.advance(head);
    Ok(body)
}

// Moves the shared bytes to the buffer: into the rest of the block, or with the whole block where no body
// shares it, or else into a block of their own, in which so many more have room.
#[inline(never)]
fn unshare(
    alloc: Global,
    shared: &mut Bytes,
    buffer: &mut BytesMut,
    more: usize,
) -> Result<(), AllocError>
    requires { buffer.old.items ≡ [] }
    ensures ok { OnOk result ((shared.new ≡ []) × (buffer.new.items ≡ shared.old)) }
    ensures err { OnErr result ((shared.new ≡ shared.old) × (buffer.new.items ≡ [])) }
{
    let rest = mem::replace(shared, Bytes::new());
    let spare = buffer.capacity() - buffer.len();
    if rest.len() <= spare && more <= spare - rest.len() {
        buffer.extend_reserved(rest.as_slice());
        return Ok(());
    }
    *buffer = BytesMut::new(alloc);
    match rest.try_into_mut() {
        Ok(whole) => *buffer = whole,
        Err(rest) => match copied(alloc, rest.as_slice(), more) {
            Ok(copy) => *buffer = copy,
            Err(error) => {
                *shared = rest;
                return Err(error);
            }
        },
    }
    Ok(())
}

// A buffer that holds these bytes, and has room for so many more.
fn copied(alloc: Global, bytes: &[u8], more: usize) -> Result<BytesMut, AllocError>
    ensures { IfOk result (λ buffer. buffer.items ≡ bytes.now) }
{
    let mut buffer = BytesMut::with_capacity(alloc, bytes.len().saturating_add(more))?;
    buffer.extend_from_slice(bytes)?;
    Ok(buffer)
}

// Makes room for so many bytes more: for as many as the block has, up to `MAX_STEP`, where they are more.
#[inline(never)]
fn grow(buffer: &mut BytesMut, most: usize, more: usize) -> Result<(), AllocError>
    ensures items { buffer.new.items ≡ buffer.old.items }
    ensures room { OnOk result (more ≤ buffer.new.spare) }
{
    let block = most.max(buffer.capacity());
    buffer.reserve(more.max(block.min(MAX_STEP)))
}
