//! Where a part of a record stands in its source.

ghost use Rattle.std.specs.Prelude.{◌≡◌, length, if◌then◌else◌, None};
ghost use Rattle.std.specs.Cmp.Lexicographic.{pointwise};
ghost use Rattle.std.specs.Ordering.{int_eq};
ghost use Rattle.protox_file_sources.specs.Places.{span_start, first_start, start_within};

use pbx_desc_records::Location;

/// Where a span begins, from 1.
fn span_start(span: &[i32]) -> Option<(u32, u32)>
    ensures { result ≡ span_start span.now }
{
    let [line, column, _, ..] = span else {
        return None;
    };
    if *line < 0 || *column < 0 {
        return None;
    }
    Some((*line as u32 + 1, *column as u32 + 1))
}

fn start_at(location: &Location, path: &[i32]) -> Option<(u32, u32)>
    ensures { result ≡ if pointwise int_eq location.now.path path.now then span_start location.now.span else None }
{
    if location.path.as_slice() == path {
        span_start(location.span.as_slice())
    } else {
        None
    }
}

/// Where the first location of exactly this path begins that tells where.
fn first_start(locations: &[Location], path: &[i32]) -> Option<(u32, u32)>
    ensures { result ≡ first_start path.now locations.now }
{
    for location in locations {
        if let Some(start) = start_at(location, path) {
            return Some(start);
        }
    }
    None
}

/// The same of the whole place, and else of as many of its first numbers as can be.
pub(crate) fn start_within(locations: &[Location], place: &[i32]) -> Option<(u32, u32)>
    ensures { result ≡ start_within locations.now place.now (length place.now) }
{
    let mut len = place.len();
    while len > 0 {
        if let Some(start) = first_start(locations, &place[..len]) {
            return Some(start);
        }
        len -= 1;
    }
    first_start(locations, &[])
}
