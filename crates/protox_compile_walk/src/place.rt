//! The place of an import in its source.

ghost use Rattle.std.specs.Prelude.{◌≡◌};
ghost use Rattle.protox_compile_walk.specs.Places.{is_import_path, place_of_span, place_of_location, first_place, place_of_import};

use pbx_desc_records::Location;
use protox_file_sources::File;

fn is_import_path(path: &[i32], index: usize) -> bool
    ensures { result ≡ is_import_path index path.now }
{
    let [field, at] = path else {
        return false;
    };
    *field == 3 && *at >= 0 && *at as usize == index
}

/// Where a span begins, from 1; only one on one line has three numbers.
fn place_of_span(span: &[i32]) -> Option<(u32, u32)>
    ensures { result ≡ place_of_span span.now }
{
    let [line, column, end] = span else {
        return None;
    };
    if *line < 0 || *column < 0 || *end < 0 {
        return None;
    }
    Some((*line as u32 + 1, *column as u32 + 1))
}

fn place_of_location(location: &Location, index: usize) -> Option<(u32, u32)>
    ensures { result ≡ place_of_location index location.now }
{
    if is_import_path(location.path.as_slice(), index) {
        place_of_span(location.span.as_slice())
    } else {
        None
    }
}

/// The first place that one of the locations gives the import.
fn first_place(locations: &[Location], index: usize) -> Option<(u32, u32)>
    ensures { result ≡ first_place index locations.now }
{
    for location in locations {
        if let Some(place) = place_of_location(location, index) {
            return Some(place);
        }
    }
    None
}

/// The place of the import of this index, if the file has its source and the record tells it.
pub(crate) fn place_of_import(file: &File, index: usize) -> Option<(u32, u32)>
    ensures { result ≡ place_of_import file.now index }
{
    let _source = file.source()?;
    let info = file.file_descriptor_proto().source_code_info.as_ref()?;
    first_place(info.location.as_slice(), index)
}
