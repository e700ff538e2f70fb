// What options and unknown records say.
ghost use Rattle.std.specs.Prelude.{◌≡◌, ◌==◌, ◌&&◌, IfOk};
ghost use Rattle.pbx_wire.specs.Text.{is_numbered as is_numbered_of};
ghost use Rattle.pbx_content.specs.Records.{number_of};
ghost use Rattle.pbx_link_definitions.specs.Says.{has_record as has_record_of, has_option as has_option_of, is_uninterpreted as is_uninterpreted_of};
ghost use Rattle.pbx_link_definitions.specs.Places.{IsAmong};
ghost use Rattle.pbx_link_rules_record.specs.OptionRules.{message_sets as message_sets_of};

use pbx_desc_records::Options;
use pbx_link_definitions::FileParts;
use pbx_wire::{List, NoMemory, Rec, Recs};
use std::alloc::Global;

/// Whether the record may be written, and has the number.
fn is_record(rec: &Rec, number: u32) -> bool
    ensures { result ≡ (is_numbered_of rec.now && number_of rec.now == number) }
{
    rec.number() == number && rec.is_numbered()
}

/// Whether one of the records, which may be written, has the number.
pub(crate) fn has_record(recs: &Recs, number: u32) -> bool
    ensures { result ≡ has_record_of number recs.now }
{
    recs.as_slice().iter().any(|rec| is_record(rec, number))
}

/// Whether the option of this number is set.
pub(crate) fn has_option(options: &Option<Options>, number: u32) -> bool
    ensures { result ≡ has_option_of number options.now }
{
    match options {
        Some(options) => options.bool_of(number).unwrap_or(false),
        None => false,
    }
}

/// Whether an option is left uninterpreted.
pub(crate) fn is_uninterpreted(options: &Option<Options>) -> bool
    ensures { result ≡ is_uninterpreted_of options.now }
{
    match options {
        Some(options) => has_record(&options.recs, 999),
        None => false,
    }
}

/// The options of a message that is a message set, rule 15 (`descriptor.proto`: MessageOptions.message_set_wire_format). The only error is
/// want of memory.
#[tactic(auto, using(crate::proofs::Walked::where_here, crate::proofs::Walked::where_next))]
pub fn message_sets(alloc: Global, parts: &FileParts<'_>) -> Result<Option<List<i32>>, NoMemory>
    ensures { IfOk result (IsAmong (message_sets_of parts.now)) }
{
    for part in parts.messages() {
        if has_option(&part.item().options, 1) {
            return Ok(Some(part.at(alloc, 7)?));
        }
    }
    Ok(None)
}
