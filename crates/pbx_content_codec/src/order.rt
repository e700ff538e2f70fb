ghost use Rattle.std.specs.Prelude.{◌≡◌, ◌++◌, IfOk, OnOk};
ghost use Rattle.pbx_content.specs.Records.{sorted};
ghost use Rattle.pbx_content.specs.Encoding.{with_kept as with_kept_of};
ghost use Rattle.pbx_content_codec.specs.Places.{ascend};

use pbx_wire::{NoMemory, Rec, Recs};
use std::alloc::Global;

/// Whether no number is below the one before it.
fn are_ascending(recs: &[Rec]) -> bool
    ensures { result ≡ ascend 0 recs.now }
{
    let mut least = 0;
    for rec in recs {
        let number = rec.number();
        if number < least {
            return false;
        }
        least = number;
    }
    true
}

/// The records in a list.
fn listed(alloc: Global, recs: Vec<Rec>) -> Result<Recs, NoMemory>
    ensures { IfOk result (λ list. list ≡ recs.items) }
{
    let mut list = Recs::with_capacity(alloc, recs.len())?;
    for rec in recs {
        list.add(rec)?;
    }
    Ok(list)
}

/// The records by ascending number, and those of one number in their order. Mostly they are so already.
fn in_order(alloc: Global, recs: Recs) -> Result<Recs, NoMemory>
    ensures { IfOk result (λ ordered. ordered ≡ sorted recs) }
{
    if are_ascending(recs.as_slice()) {
        return Ok(recs);
    }
    let mut recs = recs.into_vec();
    recs.sort_by_key(|rec| rec.number())?;
    listed(alloc, recs)
}

/// Adds copies of the records at the end.
fn add_copies(recs: &mut Recs, more: &Recs, alloc: Global) -> Result<(), NoMemory>
    ensures { OnOk result (recs.new ≡ recs.old ++ more.now) }
{
    for rec in more.as_slice() {
        recs.add(rec.copy(alloc)?)?;
    }
    Ok(())
}

/// The records of the fields by ascending number, with the kept ones behind them all, or each at its number.
pub(crate) fn with_kept(
    alloc: Global,
    keeps_order: bool,
    own: Recs,
    kept: &Recs,
) -> Result<Recs, NoMemory>
    ensures { IfOk result (λ recs. recs ≡ with_kept_of keeps_order own kept.now) }
{
    if keeps_order {
        let mut recs = in_order(alloc, own)?;
        add_copies(&mut recs, kept, alloc)?;
        Ok(recs)
    } else {
        let mut recs = own;
        add_copies(&mut recs, kept, alloc)?;
        in_order(alloc, recs)
    }
}
