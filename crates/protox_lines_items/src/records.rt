//! Cutting bytes into records.

ghost use Rattle.std.specs.Prelude.{◌≡◌, ◌≤◌, ◌<◌, ◌-◌, ◌+◌, ◌++◌, [], length, take as take_bytes, drop as drop_bytes, IsTrue, IsFalse};
ghost use Rattle.std.specs.Prelude.{IfOk, OnOk, IfErr, OnErr, IfSome, MatchOption};
ghost use Rattle.pbx_wire.specs.Spelling.{IsChain};
ghost use Rattle.pbx_wire.specs.Faults.{GoesOn, EndsInVarint};
ghost use Rattle.protox_lines_items.specs.Items.{longest};
ghost use Rattle.protox_lines_items.specs.Records.{IsBegun, IsPrefixFault, TakesPrefix, TakesRecord, RecordStands};
ghost use Rattle.protox_lines_items.specs.declared.cutter.CutFault.TheVariants.{NoMemory as OutOfMemory};

use crate::cutter::{CutFault, Cutter, Last, Taken};
use pbx_wire::read_varint;
use std::alloc::Global;
use std::marker::Model;

// The most bytes of a record.
const LONGEST: u64 = 16_777_216;

// The most bytes of a length.
const LONGEST_PREFIX: usize = 10;

// The room in bytes that is kept from record to record: what a longer one took is given back.
const KEPT_ROOM: usize = 65536;

/// Cuts the bytes of a stream into records, each of which stands behind its length.
///
/// It takes memory for the bytes that have come, however many a length promises.
#[derive(Drop)]
pub struct RecordCutter {
    // The bytes of a length, until its record is whole.
    prefix: Vec<u8>,
    // How many bytes of the record are still to come, once the length is whole.
    left: usize,
    // The bytes of the record that have come, or of the last whole one.
    item: Vec<u8>,
}

impl Model for RecordCutter {
    ghost use Rattle.std.specs.Prelude.{◌+◌, ◌≤◌, length};
    ghost use Rattle.protox_lines_items.specs.Items.{longest};
    ghost use Rattle.protox_lines_items.specs.Records.{RecordState};

    ghost Value = { RecordState };

    ghost view = { λ c. record { prefix = c.prefix.items; left = c.left; item = c.item.items } };

    // So a whole record is not too long, whatever was taken before.
    ghost invariant = { λ c. length c.item.items + c.left ≤ longest };
}

impl RecordCutter {
    /// A cutter that has taken no bytes. It takes no memory.
    pub fn new(alloc: Global) -> RecordCutter
        ensures { RecordStands result [] [] }
    {
        RecordCutter {
            prefix: Vec::new(alloc),
            left: 0,
            item: Vec::new(alloc),
        }
    }

    /// Begins the record whose length is whole.
    fn begin_record(&mut self) -> Result<(), CutFault>
        ensures begun { IsChain self.old.prefix → OnOk result (IsBegun self.new) }
        ensures item { OnOk result (self.new.item ≡ []) }
        ensures prefix { self.new.prefix ≡ self.old.prefix }
        ensures fault { IsChain self.old.prefix → IfErr result (IsPrefixFault self.old.prefix) }
    {
        match read_varint(0, self.prefix.as_slice()) {
            Ok((length, _)) => {
                if length > LONGEST {
                    return Err(CutFault::Oversized);
                }
                self.item.clear();
                self.item.shrink_to(KEPT_ROOM);
                self.left = length as usize;
                Ok(())
            }
            Err(_) => Err(CutFault::Malformed),
        }
    }

    /// Takes the first of these bytes that belong to a length, and says how many where it is whole with them: then its
    /// record is begun. Else it takes all of them.
    fn take_prefix(&mut self, bytes: &[u8]) -> Result<Option<usize>, CutFault>
        ensures within { IfOk result (λ end. IfSome end (λ n. (0 < n) × (n ≤ length bytes.now))) }
        ensures taken { EndsInVarint self.old.prefix → IfOk result (TakesPrefix self.old self.new bytes.now) }
        ensures fault { EndsInVarint self.old.prefix → IfErr result (IsPrefixFault (self.old.prefix ++ bytes.now)) }
    {
        let room = LONGEST_PREFIX.saturating_sub(self.prefix.len());
        match prefix_end(&bytes[..room.min(bytes.len())]) {
            Some(end) => {
                put(&mut self.prefix, &bytes[..end])?;
                self.begin_record()?;
                Ok(Some(end))
            }
            None if bytes.len() < room => {
                put(&mut self.prefix, bytes)?;
                Ok(None)
            }
            None => Err(CutFault::Malformed),
        }
    }

    /// Takes the bytes behind the first ones that belong to the record that is begun.
    fn take_record(&mut self, begun: usize, bytes: &[u8]) -> Result<Taken, CutFault>
        requires { begun ≤ length bytes.now }
        ensures within { IfOk result (λ t. (begun ≤ t.count) × (t.count ≤ length bytes.now)) }
        ensures some { 0 < self.old.left → begun < length bytes.now → IfOk result (λ t. begun < t.count) }
        ensures all { IfOk result (λ t. IsFalse t.whole → t.count ≡ length bytes.now) }
        ensures short { IfOk result (λ t. IsTrue t.whole → length self.new.item ≤ longest) }
        ensures taken { IfOk result (λ t. TakesRecord self.old self.new (take_bytes (t.count - begun) (drop_bytes begun bytes.now)) t.whole) }
        ensures fault { IfErr result (λ e. e ≡ OutOfMemory) }
    {
        let rest = &bytes[begun..];
        let more = self.left.min(rest.len());
        put(&mut self.item, &rest[..more])?;
        self.left -= more;
        let whole = self.left == 0;
        if whole {
            self.prefix.clear();
        }
        Ok(Taken {
            count: begun + more,
            whole,
        })
    }
}

/// Puts bytes behind those that are kept. A refused call changes nothing.
fn put(kept: &mut Vec<u8>, bytes: &[u8]) -> Result<(), CutFault>
    ensures ok { OnOk result (kept.new.items ≡ kept.old.items ++ bytes.now) }
    ensures err { OnErr result (kept.new.items ≡ kept.old.items) }
    ensures fault { IfErr result (λ e. e ≡ OutOfMemory) }
{
    match kept.extend_from_slice(bytes) {
        Ok(()) => Ok(()),
        Err(_) => Err(CutFault::NoMemory),
    }
}

/// How many bytes a length has that ends in these bytes, where one does: its last byte is below 128.
fn prefix_end(bytes: &[u8]) -> Option<usize>
    ensures { MatchOption result (GoesOn bytes.now) (λ n. (0 < n) × (n ≤ length bytes.now) × IsChain (take_bytes n bytes.now)) }
{
    for (i, byte) in bytes.iter().enumerate() {
        if *byte < 128 {
            return Some(i + 1);
        }
    }
    None
}

impl Cutter for RecordCutter {
    ghost use Rattle.protox_lines_items.specs.Items.{AreItems};
    ghost use Rattle.protox_lines_items.specs.Records.{RecordStands};
    ghost use Rattle.protox_lines_items.specs.RecordLaws.{stands_begin, stands_past};

    ghost cuts = { AreItems };

    ghost stands = { RecordStands };

    ghost current = { λ c. c.item };

    fn take(&mut self, bytes: &[u8]) -> Result<Taken, CutFault> {
        if self.left > 0 {
            return self.take_record(0, bytes);
        }
        match self.take_prefix(bytes)? {
            Some(begun) => self.take_record(begun, bytes),
            None => Ok(Taken {
                count: bytes.len(),
                whole: false,
            }),
        }
    }

    fn item(&self) -> &[u8] {
        self.item.as_slice()
    }

    fn last(&self) -> Last {
        if self.left == 0 && self.prefix.is_empty() {
            Last::Nothing
        } else {
            Last::CutOff
        }
    }

    ghost begins = { stands_begin };

    ghost past = { stands_past };
}
