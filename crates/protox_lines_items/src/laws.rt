//! What holds of streams.

ghost use Rattle.protox_lines_items.specs.Laws.{StreamsAreOne};

/// Bytes have one stream of records: no two are those of the same bytes.
pub fn streams_are_one()
    ensures { StreamsAreOne }
{}
