// A pool of linked files.
ghost use Rattle.std.specs.Prelude.{◌≡◌, ◌<◌, [], length, option_copied, slice_index_or, IfOk, ⊤};
ghost use Rattle.pbx_link_rules.specs.Pool.{ArePooled};
ghost use Rattle.pbx_link.specs.Tables.{files_of};
ghost use Rattle.pbx_link_meaning.specs.Descriptors.{all_files, all_messages};

use crate::file::PoolFiles;
use crate::handle::PoolHandle;
use crate::pool_messages::PoolMessages;
use pbx_link_pool::Pool;
use pbx_link_tables::FileTable;
use pbx_shared::Shared;
use pbx_wire::NoMemory;
use std::alloc::{AllocError, Global};
use std::marker::Model;

/// The linked records of files, each of which keeps the rules among those before it. Contracts see the list of them.
///
/// A copy stays as it is when the pool that it was made of grows, and so do descriptors.
#[derive(Drop)]
pub struct DescriptorPool {
    pub(crate) pool: Option<PoolHandle>,
    pub(crate) alloc: Global,
}

impl Model for DescriptorPool {
    ghost use Rattle.std.specs.Prelude.{List, []};
    ghost use Rattle.std.specs.Coded.{coded_list};
    ghost use Rattle.pbx_desc_records.specs.declared.file.FileDescriptorProto.{FileDescriptorProto};
    ghost use Rattle.pbx_desc_records.specs.contracts.file.FileDescriptorProto as proto;
    ghost use Rattle.pbx_link_rules.specs.Pool.{ArePooled};
    ghost use Rattle.pbx_link.specs.Tables.{files_of};

    ghost Value = { List FileDescriptorProto };

    ghost coded = { coded_list proto.the_row.coded };

    ghost view = { λ p. files_of p.pool };

    ghost invariant = { λ p. ArePooled [] (files_of p.pool) };
}

impl DescriptorPool {
    /// The pool without files. The only error is want of memory.
    #[tactic(auto, using(crate::proofs::Pooled::none_pooled))]
    pub fn new(alloc: Global) -> Result<DescriptorPool, NoMemory>
        ensures { IfOk result (λ pool. pool ≡ []) }
    {
        Ok(DescriptorPool { pool: None, alloc })
    }

    /// A pool of the same files. It takes no memory and cannot fail.
    pub fn copy(&self) -> DescriptorPool
        ensures { result ≡ self.now }
    {
        let pool = match &self.pool {
            Some(pool) => Some(pool.copy()),
            None => None,
        };
        DescriptorPool {
            pool,
            alloc: self.alloc,
        }
    }

    /// The files with their look-ups, where there are files.
    pub(crate) fn linked(&self) -> Option<&Pool>
        ensures { files_of (option_copied result) ≡ self.now }
    {
        match &self.pool {
            Some(pool) => Some(pool.as_ref()),
            None => None,
        }
    }

    /// The tables of the files.
    pub(crate) fn tables(&self) -> &[Shared<FileTable>]
        ensures same { result.now ≡ self.now }
        ensures pooled { ArePooled [] self.now }
    {
        match &self.pool {
            Some(pool) => pool.as_ref().tables(),
            None => &[],
        }
    }

    /// The table of the file of this index.
    pub(crate) fn table(&self, index: usize) -> &Shared<FileTable>
        requires { index < length self.now }
        ensures { result.now ≡ slice_index_or self.now index result.now }
    {
        &self.tables()[index]
    }

    /// The files, in the order in which they were added.
    pub fn files(&self) -> PoolFiles<'_>
        ensures files { result ≡ all_files self.now }
        // Each record is linked among those before it.
        ensures pooled { ArePooled [] self.now }
    {
        let _ = self.tables();
        PoolFiles {
            pool: self,
            index: 0,
        }
    }

    /// Every message, file by file, each directly followed by those nested in it.
    pub fn all_messages(&self) -> PoolMessages<'_>
        ensures { result ≡ all_messages self.now }
    {
        PoolMessages {
            pool: self,
            file: 0,
            index: 0,
        }
    }
}

// `copy` as the bound `Clone` has it: it never fails.
impl Clone for DescriptorPool {
    ghost is_clone = { λ pool copy. copy ≡ pool };

    ghost is_infallible = { λ _. ⊤ };

    fn clone(&self) -> Result<DescriptorPool, AllocError> {
        Ok(self.copy())
    }
}
