//! Cutting lines.

ghost use Rattle.std.specs.Prelude.{◌≡◌, ◌≢◌, ◌≤◌, ◌<◌, ◌++◌, ◌∷◌, ℕ, [], List as ListOf, IfOk, IfErr, OnOk, IsTrue, IsFalse, length, nat_lt, take as take_bytes};
ghost use Rattle.std.specs.List.{list_all};
ghost use Rattle.protox_lines_items.specs.Items.{longest, most, is_blank, is_feed, is_item};
ghost use Rattle.protox_lines_items.specs.Cutting.{with_item, IsCutFault};
ghost use Rattle.protox_lines_items.specs.declared.lines.Piece.TheVariants as PieceOf;
ghost use Rattle.protox_lines_items.specs.LineLaws.{lines_begin, lines_past};
ghost use Rattle.protox_lines_items.specs.Lines.{AreLines, CannotGrow, EndsAt, IsOpen, LineStands, is_item_piece};

use crate::bytes::{behind, front};
use crate::cutter::{CutFault, Cutter, Last, Taken};
use memchr::memchr;
use std::alloc::Global;

// The most bytes of an item.
const LONGEST: usize = 16_777_216;

// The most room that is kept from one line to the next: a line of 16 MiB gives its room back.
const ROOM: usize = 65_536;

// What is known of the open piece, which are the bytes behind the last line feed.
#[derive(Clone, Copy, Debug, Drop)]
enum Piece {
    // It is blank so far, and all of it is kept.
    Blank,
    // It is blank so far and too long for an item, so that nothing of it is kept.
    LongBlank,
    // It is an item, and all of it is kept.
    Item,
    // It has no bytes yet; what is kept is the piece that the line feed ended.
    Ended,
}

/// Cuts bytes at line feeds. Blank lines are no items, however long they are.
#[derive(Debug, Drop)]
pub struct LineCutter {
    line: Vec<u8>,
    piece: Piece,
}

// Whether there is nothing but blanks, tabs and carriage returns.
fn is_blank_text(bytes: &[u8]) -> bool
    ensures { result ≡ list_all is_blank bytes.now }
{
    bytes
        .iter()
        .all(|byte| matches!(byte, b' ' | b'\t' | b'\r'))
}

// Whether the open piece is an item.
fn is_item(piece: Piece) -> bool
    ensures { result ≡ is_item_piece piece }
{
    match piece {
        Piece::Item => true,
        Piece::Blank | Piece::LongBlank | Piece::Ended => false,
    }
}

// Where the first piece of the bytes ends.
fn piece_end(bytes: &[u8]) -> Option<usize>
    ensures { EndsAt bytes.now result }
{
    memchr(b'\n', bytes)
}

impl LineCutter {
    /// A cutter before the first byte; takes no memory.
    pub fn new(alloc: Global) -> LineCutter
        ensures { LineStands result [] [] }
    {
        LineCutter {
            line: Vec::new(alloc),
            piece: Piece::Ended,
        }
    }

    // Lets go of what is kept, and of the room for it where that is much.
    fn clear(&mut self)
        ensures line { self.new.line.items ≡ [] }
        ensures piece { self.new.piece ≡ self.old.piece }
    {
        if self.line.capacity() > ROOM {
            self.line = Vec::new(*self.line.allocator());
        } else {
            self.line.clear();
        }
    }

    // Begins a piece where the last one ended.
    fn open(&mut self)
        ensures opens { (piece : ListOf ℕ) → IsOpen self.old piece → IsOpen self.new piece }
        ensures is_open { self.new.piece ≢ PieceOf.Ended }
    {
        if let Piece::Ended = self.piece {
            self.clear();
            self.piece = Piece::Blank;
        }
    }

    // Whether the open piece is an item with these bytes.
    fn is_item_with(&self, bytes: &[u8]) -> bool
        ensures { (piece : ListOf ℕ) → IsOpen self.now piece → result ≡ is_item (piece ++ bytes.now) }
    {
        matches!(self.piece, Piece::Item) || !is_blank_text(bytes)
    }

    // Whether the open piece is too long for an item with these bytes.
    fn is_long_with(&self, bytes: &[u8]) -> bool
        requires { self.now.piece ≢ PieceOf.Ended }
        ensures long { (piece : ListOf ℕ) → IsOpen self.now piece → result ≡ nat_lt longest (length (piece ++ bytes.now)) }
        ensures fits { IsFalse result → length (self.now.line.items ++ bytes.now) ≤ longest }
    {
        matches!(self.piece, Piece::LongBlank) || self.line.len() + bytes.len() > LONGEST
    }

    // Takes these bytes to the open piece. They have no line feed.
    fn grow(&mut self, bytes: &[u8]) -> Result<(), CutFault>
        ensures ok { (piece : ListOf ℕ) → IsOpen self.old piece → OnOk result (IsOpen self.new (piece ++ bytes.now)) }
        ensures err { (piece : ListOf ℕ) → IsOpen self.old piece → IfErr result (CannotGrow (piece ++ bytes.now)) }
        ensures short { OnOk result (length self.new.line.items ≤ longest) }
    {
        self.open();
        let is_item = self.is_item_with(bytes);
        if self.is_long_with(bytes) {
            if is_item {
                return Err(CutFault::TooLong);
            }
            self.clear();
            self.piece = Piece::LongBlank;
            return Ok(());
        }
        let Ok(()) = self.line.extend_from_slice(bytes) else {
            return Err(CutFault::NoMemory);
        };
        self.piece = if is_item { Piece::Item } else { Piece::Blank };
        Ok(())
    }

    // Ends the open piece at its line feed: whether it is an item.
    fn end(&mut self) -> bool
        ensures stands { (read : ListOf ℕ) (items : ListOf (ListOf ℕ)) → LineStands self.old read items
            → LineStands self.new (read ++ 10 ∷ []) (with_item result self.new.line.items items) }
        ensures same { self.new.line ≡ self.old.line }
    {
        let is_item = is_item(self.piece);
        self.piece = Piece::Ended;
        is_item
    }

    // Takes the first of these bytes: all of them, or those up to the first line feed, and with it.
    fn take_piece(&mut self, bytes: &[u8]) -> Result<Taken, CutFault>
        ensures within { IfOk result (λ t. t.count ≤ length bytes.now) }
        ensures some { IfOk result (λ t. 0 < length bytes.now → 0 < t.count) }
        ensures short { IfOk result (λ t. IsTrue t.whole → length self.new.line.items ≤ longest) }
        ensures stands { (read : ListOf ℕ) (items : ListOf (ListOf ℕ)) → LineStands self.old read items
            → IfOk result (λ t. LineStands self.new (read ++ take_bytes t.count bytes.now) (with_item t.whole self.new.line.items items)) }
        ensures fault { (read : ListOf ℕ) (items : ListOf (ListOf ℕ)) → LineStands self.old read items → length (read ++ bytes.now) ≤ most
            → IfErr result (IsCutFault AreLines (read ++ bytes.now) items) }
    {
        match piece_end(bytes) {
            Some(end) => match self.grow(front(bytes, end)) {
                Ok(()) => Ok(Taken {
                    count: end + 1,
                    whole: self.end(),
                }),
                Err(fault) => Err(fault),
            },
            None => match self.grow(bytes) {
                Ok(()) => Ok(Taken {
                    count: bytes.len(),
                    whole: false,
                }),
                Err(fault) => Err(fault),
            },
        }
    }
}

impl Cutter for LineCutter {
    ghost cuts = { AreLines };

    ghost stands = { LineStands };

    ghost current = { λ c. c.line.items };

    fn take(&mut self, bytes: &[u8]) -> Result<Taken, CutFault> {
        let mut count = 0;
        // A blank line is no item: the cutter goes on behind it.
        'cutting: loop {
            let taken = match self.take_piece(behind(bytes, count)) {
                Ok(taken) => taken,
                Err(fault) => return Err(fault),
            };
            count += taken.count;
            if taken.whole || count == bytes.len() {
                return Ok(Taken {
                    count,
                    whole: taken.whole,
                });
            }
        }
    }

    fn item(&self) -> &[u8] {
        self.line.as_slice()
    }

    fn last(&self) -> Last {
        if is_item(self.piece) {
            Last::Item
        } else {
            Last::Nothing
        }
    }

    ghost begins = { lines_begin };

    ghost past = { lines_past };
}
