// Files of a pool.
ghost use Rattle.std.specs.Prelude.{◌≡◌, [], Contains};
ghost use Rattle.std.specs.Iterator.{YieldsFirst, item_count};
ghost use Rattle.pbx_link_rules.specs.Pool.{ArePooled};
ghost use Rattle.pbx_link_definitions.specs.Names.{text_or_empty as text_or_empty_of};
ghost use Rattle.pbx_link_definitions.specs.Definitions.{package_of};
ghost use Rattle.pbx_link.specs.Kinds.{described_syntax};

use crate::kind::Syntax;
use crate::pool::DescriptorPool;
use pbx_link_definitions::{is_named, text_or_empty};
use pbx_link_tables::FileTable;
use pbx_shared::Shared;
use std::marker::Model;

/// A file of a pool. Contracts see the pool beside the file's linked record.
#[derive(Drop)]
pub struct FileDescriptor {
    pub(crate) pool: DescriptorPool,
    pub(crate) table: Shared<FileTable>,
}

impl Model for FileDescriptor {
    ghost use Rattle.std.specs.Prelude.{Contains};
    ghost use Rattle.pbx_link_meaning.specs.Descriptors.{FileDescribed, file_code};

    ghost Value = { FileDescribed };

    ghost coded = { file_code };

    ghost view = { λ d. record { pool = d.pool; file = d.table } };

    ghost invariant = { λ d. Contains d.pool d.table };
}

impl FileDescriptor {
    /// The same file. It takes no memory.
    pub fn copy(&self) -> FileDescriptor
        ensures { result ≡ self.now }
    {
        FileDescriptor {
            pool: self.pool.copy(),
            table: self.table.copy(),
        }
    }

    /// The name under which the file is imported.
    pub fn name(&self) -> &str
        ensures { result.now ≡ text_or_empty_of self.now.file.name }
    {
        text_or_empty(&self.table.as_ref().file().name)
    }

    /// The package, which is empty where the file has none.
    pub fn package_name(&self) -> &str
        ensures { result.now ≡ package_of self.now.file }
    {
        text_or_empty(&self.table.as_ref().file().package)
    }

    /// The language of the file.
    pub fn syntax(&self) -> Syntax
        ensures { result ≡ described_syntax self.now.file }
    {
        if is_named(&self.table.as_ref().file().syntax, "proto3") {
            Syntax::Proto3
        } else {
            Syntax::Proto2
        }
    }

    /// The pool that the file is of.
    pub fn parent_pool(&self) -> DescriptorPool
        ensures pool { result ≡ self.now.pool }
        ensures of_it { Contains result self.now.file }
        // Each record of the pool is linked among those before it.
        ensures pooled { ArePooled [] result }
    {
        let _ = self.pool.tables();
        self.pool.copy()
    }
}

/// The files of a pool in the order in which they were added. Contracts see the list of those that are left.
#[derive(Drop)]
pub struct PoolFiles<'a> {
    pub(crate) pool: &'a DescriptorPool,
    pub(crate) index: usize,
}

impl<'a> Model for PoolFiles<'a> {
    ghost use Rattle.std.specs.Prelude.{List, drop};
    ghost use Rattle.std.specs.Coded.{coded_list};
    ghost use Rattle.pbx_link_meaning.specs.Descriptors.{FileDescribed, file_code, all_files};

    ghost Value = { List FileDescribed };

    ghost coded = { coded_list file_code };

    ghost view = { λ it. drop it.index (all_files it.pool.now) };
}

impl Iterator for PoolFiles<'_> {
    type Item = FileDescriptor;

    ghost next_gives = { YieldsFirst (λ it. it) };

    ghost remaining = { item_count (λ it. it) };

    fn next(&mut self) -> Option<FileDescriptor> {
        let pool = self.pool;
        let table = pool.tables().get(self.index)?;
        self.index += 1;
        Some(FileDescriptor {
            pool: pool.copy(),
            table: table.copy(),
        })
    }

    fn size_hint(&self) -> (usize, Option<usize>) {
        let len = self.len();
        (len, Some(len))
    }
}

impl ExactSizeIterator for PoolFiles<'_> {
    fn len(&self) -> usize {
        self.pool.tables().len().saturating_sub(self.index)
    }
}
