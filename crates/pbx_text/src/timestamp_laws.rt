ghost use Rattle.pbx_text.specs.TimestampLaws.{TimestampsReadBack};

/// What is written of a timestamp reads as the timestamp.
pub fn timestamps_read_back()
    ensures { TimestampsReadBack }
{}
