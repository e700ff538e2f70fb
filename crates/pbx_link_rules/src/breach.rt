// A breach of a rule of linking.
use pbx_wire::List;

/// A breach of a rule of linking.
#[derive(Drop)]
pub struct Breach {
    /// The number of the rule, 1 to 16.
    pub rule: u8,
    /// Where the file's record breaks it: a path of field numbers of `descriptor.proto` and of indexes.
    pub place: List<i32>,
}
