ghost use Rattle.std.specs.Prelude.{◌≡◌, [], IfOk};
ghost use Rattle.pbx_desc_records.specs.Options.{truth_at, bool_of as bool_of_recs};

use pbx_wire::{NoMemory, Rec, Recs, copy_recs};
use std::alloc::Global;

/// The options of a file, a message, a field or another part, as the records of a message like
/// `google.protobuf.FileOptions`.
#[derive(Drop)]
pub struct Options {
    /// The records, in order of arrival.
    pub recs: Recs,
}

impl Options {
    /// Options without records; takes no memory.
    pub fn new(alloc: Global) -> Options
        ensures { result ≡ record { recs = [] } }
    {
        Options {
            recs: Recs::new(alloc),
        }
    }

    /// Equal options. The only error is want of memory.
    pub fn copy(&self, alloc: Global) -> Result<Options, NoMemory>
        ensures { IfOk result (λ copy. copy ≡ self.now) }
    {
        Ok(Options {
            recs: copy_recs(&self.recs, alloc)?,
        })
    }

    /// The last varint record of the number as a truth value, where any number but 0 is true; None where
    /// there is no such record.
    pub fn bool_of(&self, number: u32) -> Option<bool>
        ensures { result ≡ bool_of_recs number self.now.recs }
    {
        let mut last = None;
        for rec in self.recs.as_slice() {
            if let Some(truth) = truth(rec, number) {
                last = Some(truth);
            }
        }
        last
    }
}

/// The truth value of a varint record of the number.
fn truth(rec: &Rec, wanted: u32) -> Option<bool>
    ensures { result ≡ truth_at wanted rec.now }
{
    match rec {
        Rec::Varint(number, value) if *number == wanted => Some(*value != 0),
        _ => None,
    }
}
