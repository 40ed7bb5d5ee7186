ghost use Rattle.std.specs.Prelude.{◌≡◌, ◌+◌, ◌-◌, ◌*◌, ◌/◌, ◌^◌, ◌<◌, ◌≤◌, ◌++◌, map, IfOk, OnOk};
ghost use Rattle.fs_rules.specs.Contents.{touched};
ghost use Rattle.fs_rules.specs.Geometry.{IsWithinLimits};
ghost use Rattle.fs_rules.specs.Lists.{below};
ghost use Rattle.fs_image.specs.Stands.{IsBlock};
ghost use Rattle.plan_rules.specs.Works.{IsWorkSet};
ghost use Rattle.content_laws.specs.Answers.{bytes_in, bytes_read, part_pieces, part_reads, piece_at, reads_at, start_in};

use fs_layout::{BLOCK_BYTES, Reference};
use fs_rules::Geometry;
use mini_tx::{Item, Items};
use node_cache::{Held, NoMemory};
use plan_forms::{Piece, Pieces};
use plan_parts::{block_place, layout_of};
use std::alloc::Global;

/// The bytes of a block.
const BLOCK: u32 = BLOCK_BYTES as u32;

/// The reads of so many bytes of a file from a place on: of each block that is stored just those that are asked for.
pub(crate) fn part_reads(
    alloc: Global,
    held: &Held,
    number: u32,
    offset: u32,
    count: u32,
) -> Result<Items, NoMemory>
    requires work { IsWorkSet held.now }
    requires end { offset + count < 2 ^ 32 }
    ensures { IfOk result (λ items. items ≡ part_reads held.now number offset count) }
{
    let mut items = Items::new(alloc);
    for block in 0..blocks_touched(offset, count) {
        push_bytes(
            &mut items,
            held,
            number,
            offset,
            count,
            offset / BLOCK + block,
        )?;
    }
    Ok(items)
}

/// The pieces of these bytes: what is read, and zeros for a block that is not stored.
pub(crate) fn part_pieces(
    alloc: Global,
    held: &Held,
    number: u32,
    offset: u32,
    count: u32,
) -> Result<Pieces, NoMemory>
    requires { offset + count < 2 ^ 32 }
    ensures { IfOk result (λ pieces. pieces ≡ part_pieces held.now number offset count) }
{
    let mut pieces = Pieces::new(alloc);
    for block in 0..blocks_touched(offset, count) {
        pieces.push(piece_at(held, number, offset, count, offset / BLOCK + block))?;
    }
    Ok(pieces)
}

// How many blocks these bytes lie in.
fn blocks_touched(offset: u32, count: u32) -> u32
    requires { offset + count < 2 ^ 32 }
    ensures exact { touched offset count ≡ map (λ k. offset / 4096 + k) (below result) }
    ensures few { 4096 * (offset / 4096 + result) ≤ offset + count + 4095 }
{
    if count == 0 {
        return 0;
    }
    (offset + count - 1) / BLOCK + 1 - offset / BLOCK
}

// Adds the read of those that lie in a block, where it is stored.
fn push_bytes(
    items: &mut Items,
    held: &Held,
    number: u32,
    offset: u32,
    count: u32,
    index: u32,
) -> Result<(), NoMemory>
    requires work { IsWorkSet held.now }
    requires end { offset + count < 2 ^ 32 }
    requires begin { offset < 4096 * (index + 1) }
    requires small { 4096 * index < 2 ^ 32 }
    ensures { OnOk result (items.new ≡ items.old ++ reads_at held.now number offset count index) }
{
    match block_place(held, number, index) {
        Some(at) => items.push(bytes_read(&held.geometry, at, offset, count, index)),
        None => Ok(()),
    }
}

// The read of those that lie in a block.
fn bytes_read(geometry: &Geometry, at: Reference, offset: u32, count: u32, index: u32) -> Item
    requires limits { IsWithinLimits geometry.now }
    requires inside { IsBlock geometry.now at }
    requires end { offset + count < 2 ^ 32 }
    requires begin { offset < 4096 * (index + 1) }
    requires small { 4096 * index < 2 ^ 32 }
    ensures { result ≡ bytes_read geometry.now offset count index at }
{
    Item::Read {
        memory: at.memory,
        at: layout_of(geometry).block_at(at.block) + start_in(offset, index),
        length: bytes_in(offset, count, index),
    }
}

// The piece of those that lie in a block.
fn piece_at(held: &Held, number: u32, offset: u32, count: u32, index: u32) -> Piece
    requires end { offset + count < 2 ^ 32 }
    requires small { 4096 * index < 2 ^ 32 }
    ensures { result ≡ piece_at held.now number offset count index }
{
    match block_place(held, number, index) {
        Some(_) => Piece::Read,
        None => Piece::Zeros(bytes_in(offset, count, index)),
    }
}

// Where those that lie in a block begin in it.
fn start_in(offset: u32, index: u32) -> u32
    requires { 4096 * index < 2 ^ 32 }
    ensures { result ≡ start_in offset index }
{
    offset.saturating_sub(BLOCK * index)
}

// How many lie in a block.
fn bytes_in(offset: u32, count: u32, index: u32) -> u32
    requires end { offset + count < 2 ^ 32 }
    requires small { 4096 * index < 2 ^ 32 }
    ensures { result ≡ bytes_in offset count index }
{
    let end = (offset + count).saturating_sub(BLOCK * index).min(BLOCK);
    end.saturating_sub(start_in(offset, index))
}
