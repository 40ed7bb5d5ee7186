ghost use Rattle.std.specs.Prelude.{◌≡◌, ◌≤◌, ◌+◌, ℕ, List, length, IfOk, All};
ghost use Rattle.mini_tx.specs.FlatMemory.{bytes_at, with_bytes};
ghost use Rattle.mem_rules.specs.Items.{are_same, written};
ghost use Rattle.mem_rules.specs.Fit.{IsWriteInside};

use mini_tx::{Bytes, NoMemory, WriteAt};
use std::alloc::Global;
use std::marker::Model;

/// The bytes that a memory node stores. A contract sees them in order.
#[derive(Drop)]
pub(crate) struct Image {
    bytes: Vec<u8>,
}

impl Model for Image {
    ghost Value = { List ℕ };

    ghost view = { λ i. i.bytes.items };
}

impl Image {
    /// These bytes. It takes no memory.
    pub(crate) fn new(bytes: Vec<u8>) -> Image
        ensures { result ≡ bytes.items }
    {
        Image { bytes }
    }

    /// How many bytes it has.
    pub(crate) fn len(&self) -> usize
        ensures { result ≡ length self.now }
    {
        self.bytes.len()
    }

    /// Whether these bytes stand from a place on.
    pub(crate) fn same_at(&self, at: u32, bytes: &[u8]) -> bool
        requires { at + length bytes.now ≤ length self.now }
        ensures { result ≡ are_same (bytes_at self.now at (length bytes.now)) bytes.now }
    {
        same(part(&self.bytes, at, bytes.len()), bytes)
    }

    /// The bytes from a place on.
    pub(crate) fn read(&self, alloc: Global, at: u32, n: u32) -> Result<Bytes, NoMemory>
        requires { at + n ≤ length self.now }
        ensures { IfOk result (λ bytes. bytes ≡ bytes_at self.now at n) }
    {
        Bytes::from_slice(alloc, part(&self.bytes, at, n as usize))
    }

    /// Puts bytes in their place.
    fn write(&mut self, at: u32, from: &[u8])
        requires { at + length from.now ≤ length self.old }
        ensures after { self.new ≡ with_bytes self.old at from.now }
        ensures size { length self.new ≡ length self.old }
    {
        let start = at as usize;
        self.bytes[start..start + from.len()].copy_from_slice(from);
    }

    /// Puts writes in their places, in order.
    pub(crate) fn write_all(&mut self, writes: &[WriteAt])
        requires { All (IsWriteInside (length self.old)) writes.now }
        ensures { self.new ≡ written self.old writes.now }
    {
        for write in writes {
            self.write(write.at, write.bytes.as_slice());
        }
    }
}

/// The bytes of an image from a place on.
fn part(image: &[u8], at: u32, n: usize) -> &[u8]
    requires { at + n ≤ length image.now }
    ensures { result.now ≡ bytes_at image.now at n }
{
    let start = at as usize;
    &image[start..start + n]
}

/// Whether these are the same bytes.
fn same(bytes: &[u8], others: &[u8]) -> bool
    ensures { result ≡ are_same bytes.now others.now }
{
    bytes == others
}
