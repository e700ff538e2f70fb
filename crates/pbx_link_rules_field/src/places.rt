// Places in a file's record.
use pbx_wire::List;

/// A path of field numbers of `descriptor.proto` and of indexes.
pub(crate) type Place = List<i32>;
