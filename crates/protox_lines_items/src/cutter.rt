//! Cutting bytes into items.

ghost use Rattle.std.specs.Prelude.{◌≡◌, ◌≢◌, ◌≤◌, ◌<◌, ◌++◌, ℕ, [], List as ListOf, IfOk, IfErr, IsTrue, IsFalse, length, take as take_bytes};
ghost use Rattle.protox_lines_items.specs.Items.{longest, most, stream, More};
ghost use Rattle.protox_lines_items.specs.Cutting.{Cuts, Stands, with_item, BeginsWith, IsCutFault, EndsSo};

/// What a cutter took of the bytes that it was given.
#[derive(Clone, Copy, Debug, Drop)]
pub struct Taken {
    /// How many of the first bytes it took.
    pub count: usize,
    /// Whether they end an item.
    pub whole: bool,
}

/// Why bytes are not cut.
#[derive(Clone, Copy, Debug, Drop)]
pub enum CutFault {
    /// A line has more than 16,777,216 bytes.
    TooLong,
    /// A length is a malformed varint.
    Malformed,
    /// A length is above 16,777,216.
    Oversized,
    /// Memory ran out.
    NoMemory,
}

/// What stands behind the last whole item where the bytes end.
#[derive(Clone, Copy, Debug, Drop)]
pub enum Last {
    /// No item.
    Nothing,
    /// An item that needs no end.
    Item,
    /// An item that is cut off.
    CutOff,
}

/// What cuts the bytes of a stream, which are given to it piece by piece, into items.
pub trait Cutter {
    /// Which stream bytes have.
    ghost cuts: { Cuts };

    /// Which items are whole where it took bytes.
    ghost stands: { Self → Stands };

    /// The bytes of the item that became whole last, or of the one that is open.
    ghost current: { Self → ListOf ℕ };

    /// Takes the first of these bytes: all of them, or those up to the end of an item. Of an empty piece it takes nothing. After an error
    /// the cutter is good for nothing.
    fn take(&mut self, bytes: &[u8]) -> Result<Taken, CutFault>
        ensures within { IfOk result (λ t. t.count ≤ length bytes.now) }
        ensures some { IfOk result (λ t. 0 < length bytes.now → 0 < t.count) }
        ensures all { IfOk result (λ t. IsFalse t.whole → t.count ≡ length bytes.now) }
        ensures short { IfOk result (λ t. IsTrue t.whole → length (current self.new) ≤ longest) }
        ensures stands { (read : ListOf ℕ) (items : ListOf (ListOf ℕ)) → stands self.old read items → length (read ++ bytes.now) ≤ most
            → IfOk result (λ t. stands self.new (read ++ take_bytes t.count bytes.now) (with_item t.whole (current self.new) items)) }
        ensures fault { (read : ListOf ℕ) (items : ListOf (ListOf ℕ)) → stands self.old read items → length (read ++ bytes.now) ≤ most
            → IfErr result (IsCutFault cuts (read ++ bytes.now) items) };

    /// The bytes of the item that became whole last, or of the one that is open.
    fn item(&self) -> &[u8]
        ensures { result.now ≡ current self.now };

    /// What stands behind the last whole item, where no more bytes follow.
    fn last(&self) -> Last
        ensures { (read : ListOf ℕ) (items : ListOf (ListOf ℕ)) → stands self.now read items → length read ≤ most
            → EndsSo cuts read items (current self.now) result };

    /// Whole items are the first of the stream, whatever follows.
    ghost begins: { (c : Self) (read more : ListOf ℕ) (items : ListOf (ListOf ℕ)) → stands c read items → length read ≤ most
        → BeginsWith cuts (read ++ more) items };

    /// Where the most bytes are taken and more follow, they are all that count.
    ghost past: { (c : Self) (read more : ListOf ℕ) (items : ListOf (ListOf ℕ)) → stands c read items → length read ≡ most → more ≢ []
        → cuts (read ++ more) (stream items More) };
}
