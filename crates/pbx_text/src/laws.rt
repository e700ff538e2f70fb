ghost use Rattle.pbx_text.specs.Laws.{NumbersReadBack, BytesReadBack, DurationsReadBack, MasksReadBack};

/// What is written of a number reads as the number.
pub fn numbers_read_back()
    ensures { NumbersReadBack }
{}

/// What is written of bytes reads as the bytes.
pub fn bytes_read_back()
    ensures { BytesReadBack }
{}

/// What is written of a duration reads as the duration.
pub fn durations_read_back()
    ensures { DurationsReadBack }
{}

/// A mask text, read and written, is its pieces that are not empty; what is written of paths reads as the paths.
pub fn masks_read_back()
    ensures { MasksReadBack }
{}
