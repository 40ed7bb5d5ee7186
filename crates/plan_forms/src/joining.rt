ghost use Rattle.std.specs.Prelude.{◌≡◌, ◌≤◌, ◌++◌, replicate, IfOk, OnOk};
ghost use Rattle.plan_forms.specs.Forms.{joined, piece_bytes, read_at, reads_of};

use crate::form::Piece;
use node_cache::{Bytes, NoMemory};
use std::alloc::Global;

/// The bytes of all pieces, in order.
pub(crate) fn joined(alloc: Global, pieces: &[Piece], reads: &[Bytes]) -> Result<Bytes, NoMemory>
    ensures { IfOk result (λ bytes. bytes ≡ joined pieces.now reads.now) }
{
    let mut bytes = Vec::with_capacity(alloc, room_for(pieces, reads))?;
    let mut taken = 0;
    for piece in pieces {
        push_piece(&mut bytes, *piece, reads, taken)?;
        taken += reads_of(*piece);
    }
    Ok(Bytes::from(bytes))
}

// How many bytes they have, as far as a number tells it: so that no byte is copied again while they are joined.
fn room_for(pieces: &[Piece], reads: &[Bytes]) -> usize {
    let mut room = 0usize;
    for piece in pieces {
        if let Piece::Zeros(count) = piece {
            room = room.saturating_add(*count as usize);
        }
    }
    for bytes in reads {
        room = room.saturating_add(bytes.len());
    }
    room
}

// How many reads a piece takes.
fn reads_of(piece: Piece) -> usize
    ensures exact { result ≡ reads_of piece }
    ensures few { result ≤ 1 }
{
    match piece {
        Piece::Zeros(_) => 0,
        Piece::Read => 1,
    }
}

// The bytes of a piece at the end, where so many reads were taken before.
fn push_piece(
    bytes: &mut Vec<u8>,
    piece: Piece,
    reads: &[Bytes],
    taken: usize,
) -> Result<(), NoMemory>
    ensures { OnOk result (bytes.new.items ≡ bytes.old.items ++ piece_bytes reads.now taken piece) }
{
    match piece {
        Piece::Zeros(count) => push_zeros(bytes, count),
        Piece::Read => Ok(bytes.extend_from_slice(read_at(reads, taken))?),
    }
}

// What was read at a place: nothing behind the last one.
fn read_at(reads: &[Bytes], at: usize) -> &[u8]
    ensures { result.now ≡ read_at reads.now at }
{
    match reads.get(at) {
        Some(bytes) => bytes.as_slice(),
        None => &[],
    }
}

// So many zeros at the end.
fn push_zeros(bytes: &mut Vec<u8>, count: u32) -> Result<(), NoMemory>
    ensures { OnOk result (bytes.new.items ≡ bytes.old.items ++ replicate count 0) }
{
    match bytes.len().checked_add(count as usize) {
        Some(filled) => Ok(bytes.resize(filled, 0)?),
        None => Err(NoMemory),
    }
}
