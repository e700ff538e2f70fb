// Options as records.
ghost use Rattle.std.specs.Prelude.{◌≡◌, map, IfOk};
ghost use Rattle.pbx_wkt_files.specs.Rows.{row_rec, rows_options};

use crate::row::OptionRow;
use pbx_desc_records::Options;
use pbx_wire::{Blob, NoMemory, Rec, Recs};
use std::alloc::Global;

fn option(alloc: Global, row: &OptionRow) -> Result<Rec, NoMemory>
    ensures { IfOk result (λ rec. rec ≡ row_rec row.now) }
{
    match row {
        OptionRow::Number(number, value) => Ok(Rec::Varint(*number, *value)),
        OptionRow::Text(number, text) => {
            Rec::from_payload(*number, Blob::from_slice(alloc, text.as_bytes())?)
        }
    }
}

/// The options of rows.
pub(crate) fn options(alloc: Global, rows: &[OptionRow]) -> Result<Options, NoMemory>
    ensures { IfOk result (λ options. options ≡ rows_options rows.now) }
{
    let mut recs = Recs::new(alloc);
    for row in rows {
        recs.add(option(alloc, row)?)?;
    }
    Ok(Options { recs })
}
