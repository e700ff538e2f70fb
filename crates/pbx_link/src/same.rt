// Whether two messages are the same.
ghost use Rattle.std.specs.Prelude.{◌≡◌, ◌↔◌, IsTrue};
ghost use Rattle.pbx_link_meaning.specs.Descriptors.{IsSame};

use crate::message::MessageDescriptor;
use crate::pool::DescriptorPool;
use pbx_desc_equality::Equals;
use pbx_link_tables::FileTable;
use pbx_shared::Shared;

/// Whether the files have the same contents. They are not read where both are of one table.
fn is_same_file(table: &Shared<FileTable>, other: &Shared<FileTable>) -> bool
    ensures { IsTrue result ↔ table.now ≡ other.now }
{
    table.ptr_eq(other) || table.as_ref().file().equals(other.as_ref().file())
}

/// Whether the files have the same contents in the same order.
fn are_same_files(tables: &[Shared<FileTable>], others: &[Shared<FileTable>]) -> bool
    ensures { IsTrue result ↔ tables.now ≡ others.now }
{
    if tables.len() != others.len() {
        return false;
    }
    for (index, table) in tables.iter().enumerate() {
        if !is_same_file(table, &others[index]) {
            return false;
        }
    }
    true
}

impl DescriptorPool {
    /// Whether both are copies of one pool, so that they have the same files.
    fn is_copy_of(&self, other: &DescriptorPool) -> bool
        ensures { IsTrue result → self.now ≡ other.now }
    {
        match &self.pool {
            Some(pool) => match &other.pool {
                Some(other) => pool.is_copy_of(other),
                None => false,
            },
            None => false,
        }
    }

    /// Whether the pools have files of the same contents in the same order.
    fn has_same_files(&self, other: &DescriptorPool) -> bool
        ensures { IsTrue result ↔ self.now ≡ other.now }
    {
        self.is_copy_of(other) || are_same_files(self.tables(), other.tables())
    }
}

impl MessageDescriptor {
    /// Whether the full names are equal and the pools have files of the same contents in the same order.
    ///
    /// What both pools share is not read: messages of one pool, or of copies of it, are compared by their names alone.
    pub fn is_same(&self, other: &MessageDescriptor) -> bool
        ensures { IsTrue result ↔ IsSame self.now other.now }
    {
        self.full_name() == other.full_name() && self.pool.has_same_files(&other.pool)
    }
}
