ghost use Rattle.std.specs.Prelude.{◌≡◌, ◌+◌, ◌*◌, ◌^◌, ◌<◌, ◌≤◌, ℕ, length, OnOk};
ghost use Rattle.disk_model.specs.Crash.{Holds, put};
ghost use Rattle.disk_model.specs.Frames.{bytes_of};

use crate::frame::{FRAME_BYTES, Frame};
use sfs_base::NoMemory;
use std::alloc::Global;
use std::collections::BTreeMap;

/// The bytes of a disk, by frames, of which only those are there that were written.
#[derive(Debug, Drop)]
pub(crate) struct Frames {
    alloc: Global,
    frames: BTreeMap<u64, Frame>,
}

impl Frames {
    /// Zeros everywhere. It takes no memory.
    pub(crate) fn new(alloc: Global) -> Frames
        ensures { (place : ℕ) → bytes_of result place ≡ 0 }
    {
        Frames {
            alloc,
            frames: BTreeMap::new(alloc),
        }
    }

    /// Fills `into` with the bytes from the place `at` on.
    pub(crate) fn read(&self, at: u64, into: &mut [u8])
        requires { at + length into.old < 2 ^ 64 }
        ensures { Holds (bytes_of self.now) at into.new }
    {
        let mut done = 0;
        while done < into.len() {
            let place = at + done as u64;
            let offset = (place % FRAME_BYTES as u64) as usize;
            let end = done + (FRAME_BYTES - offset).min(into.len() - done);
            self.read_piece(place / FRAME_BYTES as u64, offset, &mut into[done..end]);
            done = end;
        }
    }

    /// Puts these bytes at the place `at` and behind it. Where there is no memory, some of them may be
    /// there, and any frame that they touch may be lost.
    pub(crate) fn write(&mut self, at: u64, from: &[u8]) -> Result<(), NoMemory>
        requires { at + length from.now < 2 ^ 64 }
        ensures { OnOk result ((place : ℕ) → bytes_of self.new place ≡ put (bytes_of self.old) at from.now place) }
    {
        let mut done = 0;
        while done < from.len() {
            let place = at + done as u64;
            let offset = (place % FRAME_BYTES as u64) as usize;
            let end = done + (FRAME_BYTES - offset).min(from.len() - done);
            self.write_piece(place / FRAME_BYTES as u64, offset, &from[done..end])?;
            done = end;
        }
        Ok(())
    }

    /// Fills `into` with bytes of one frame.
    fn read_piece(&self, number: u64, offset: usize, into: &mut [u8])
        requires { offset + length into.old ≤ 4096 }
        ensures { Holds (bytes_of self.now) (4096 * number + offset) into.new }
    {
        match self.frames.get(&number) {
            Some(frame) => frame.read(offset, into),
            None => into.fill(0),
        }
    }

    /// Puts these bytes into one frame.
    fn write_piece(&mut self, number: u64, offset: usize, from: &[u8]) -> Result<(), NoMemory>
        requires { offset + length from.now ≤ 4096 }
        ensures { OnOk result ((place : ℕ)
            → bytes_of self.new place ≡ put (bytes_of self.old) (4096 * number + offset) from.now place) }
    {
        let mut frame = match self.frames.remove(&number) {
            Some(frame) => frame,
            None => Frame::new(self.alloc)?,
        };
        frame.write(offset, from);
        self.frames.insert(number, frame)?;
        Ok(())
    }
}
