use pbx_content::Schema;
use std::alloc::Global;

/// What all of a tree is read by.
#[derive(Drop)]
pub(crate) struct Reading<'s> {
    pub(crate) alloc: Global,
    pub(crate) schema: &'s Schema,
    /// Whether keys and names of enums that name nothing are skipped.
    pub(crate) allow: bool,
}
