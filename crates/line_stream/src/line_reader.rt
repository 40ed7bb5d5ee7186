ghost use Rattle.std.specs.Prelude.{◌≡◌, ◌<◌, ◌≤◌, ℕ, List, [], ◌++◌, length, drop, IfOk};
ghost use Rattle.sfs_base.specs.Fault.{HasCause};
ghost use Rattle.schedule_text.specs.Stream.{Takes, IsAtEnd};
ghost use Rattle.line_stream.specs.Lines.{IsOneLine};
ghost use Rattle.line_stream.specs.LineReader.{Finds, Turns, TakesAll, Scans, Keeps, Refills, CountsReads};

use crate::found::{Found, Scanned};
use crate::stop::Stop;
use memchr::memchr;
use schedule_text::{Failed, MAX_LINE_BYTES, NoMemory, Source};
use std::alloc::Global;
use std::marker::Model;

/// What ends a line.
pub const NEWLINE: u8 = 10;

/// The most bytes that are read at once.
pub const PIECE_BYTES: usize = 4_096;

/// Reads a text line by line. It keeps one piece of what was read, and beside it the line that it found
/// last, or the front of one that is not whole yet, of at most [`MAX_LINE_BYTES`] bytes.
#[derive(Debug, Drop)]
pub struct LineReader {
    piece: Vec<u8>,
    from: usize,
    to: usize,
    line: Vec<u8>,
}

impl Model for LineReader {
    ghost use Rattle.std.specs.Prelude.{◌≤◌, ◌-◌, ◌≡◌, take, drop, length, vec_len};
    ghost use Rattle.line_stream.specs.Reading.{Reading};

    ghost Value = { Reading };

    ghost view = { λ r. record { line = r.line.items; pending = take (r.to - r.from) (drop r.from r.piece.items) } };

    ghost invariant = { λ r. (r.from ≤ r.to) × (r.to ≤ vec_len r.piece) × (vec_len r.piece ≡ 4096) × (vec_len r.line ≤ 140000) };
}

impl LineReader {
    /// A reader that has read nothing.
    pub fn new(alloc: Global) -> Result<LineReader, NoMemory>
        ensures { IfOk result (λ r. r ≡ record { line = []; pending = [] }) }
    {
        Ok(LineReader {
            piece: vec![in alloc; 0; PIECE_BYTES]?,
            from: 0,
            to: 0,
            line: Vec::new(alloc),
        })
    }

    /// The line that was found last, without its end.
    pub fn line(&self) -> &[u8]
        ensures { result.now ≡ self.now.line }
    {
        self.line.as_slice()
    }

    /// Reads on to the end of the next line, in pieces of at most [`PIECE_BYTES`] bytes, and no piece more
    /// than it takes. [`Stop::ReadFault`]: the source failed before the line ended.
    pub fn next_line<S: Source>(&mut self, source: &mut S) -> Result<Found, Stop>
        ensures counts { CountsReads (S.faults source.old) (S.faults source.new) result }
        ensures found { (taken : List ℕ) × Takes (S.left source.old) (S.left source.new) taken
            × Finds (self.old.pending ++ taken) self.new (TakesAll (S.left source.old) taken) result }
    {
        self.clear();
        for _ in 0..MAX_LINE_BYTES + 2 {
            if let Some(found) = self.read_on(source)? {
                return Ok(found);
            }
        }
        Ok(Found::TooLong)
    }

    // Forgets the line that was found last.
    fn clear(&mut self)
        ensures { self.new ≡ record { line = []; pending = self.old.pending } }
    {
        self.line.clear();
    }

    // Looks through the piece, and reads the next one where the line does not end in it.
    fn read_on<S: Source>(&mut self, source: &mut S) -> Result<Option<Found>, Stop>
        requires { IsOneLine self.old.line }
        ensures counts { CountsReads (S.faults source.old) (S.faults source.new) result }
        ensures turns { (taken : List ℕ) × Takes (S.left source.old) (S.left source.new) taken
            × Turns self.old self.new taken (IsAtEnd (S.left source.old)) result }
    {
        match self.scan()? {
            Scanned::Line => return Ok(Some(Found::Line)),
            Scanned::TooLong => return Ok(Some(Found::TooLong)),
            Scanned::More => {}
        }
        match self.refill(source) {
            Err(_) => Err(Stop::ReadFault),
            Ok(0) => Ok(Some(self.at_end())),
            Ok(_) => Ok(None),
        }
    }

    // What the end of the text is: the end of a line, or of the lines.
    fn at_end(&self) -> Found
        ensures last { 0 < length self.now.line → result ≡ Found.Last }
        ensures end { length self.now.line ≡ 0 → result ≡ Found.End }
    {
        if self.line.is_empty() {
            Found::End
        } else {
            Found::Last
        }
    }

    // Moves what stands before the end of the line from the piece to the line, and drops that end: all of
    // the piece, where the line does not end in it.
    fn scan(&mut self) -> Result<Scanned, NoMemory>
        ensures { Scans self.old self.new result }
    {
        let pending = self.pending();
        let count = pending.len();
        match memchr(NEWLINE, pending) {
            Some(at) => {
                if !self.keep(at)? {
                    return Ok(Scanned::TooLong);
                }
                self.skip();
                Ok(Scanned::Line)
            }
            None => {
                if !self.keep(count)? {
                    return Ok(Scanned::TooLong);
                }
                Ok(Scanned::More)
            }
        }
    }

    // The bytes that were read and stand behind the line.
    fn pending(&self) -> &[u8]
        ensures { result.now ≡ self.now.pending }
    {
        &self.piece[self.from..self.to]
    }

    // Moves some of the pending bytes to the line, if there is room for them.
    #[tactic(auto, using(crate::proofs::WindowLemmas::windows))]
    fn keep(&mut self, count: usize) -> Result<bool, NoMemory>
        requires { count ≤ length self.old.pending }
        ensures { Keeps self.old self.new count result }
    {
        if count > MAX_LINE_BYTES - self.line.len() {
            return Ok(false);
        }
        self.line
            .extend_from_slice(&self.piece[self.from..self.from + count])?;
        self.from += count;
        Ok(true)
    }

    // Drops the first of the pending bytes.
    fn skip(&mut self)
        requires { 0 < length self.old.pending }
        ensures { self.new ≡ record self.old { pending = drop 1 self.old.pending } }
    {
        self.from += 1;
    }

    // Reads the next piece, where all of the last one is used up, and says how many bytes it has.
    fn refill<S: Source>(&mut self, source: &mut S) -> Result<usize, Failed>
        requires { self.old.pending ≡ [] }
        ensures cause { HasCause (S.faults source.old) (S.faults source.new) result }
        ensures refilled { Refills self.old self.new (S.left source.old) (S.left source.new) result }
    {
        self.from = 0;
        self.to = 0;
        self.to = source.read(&mut self.piece)?;
        Ok(self.to)
    }
}
