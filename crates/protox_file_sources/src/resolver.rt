ghost use Rattle.std.specs.Prelude.{◌≡◌, ℕ, List, Some, IsTrue, IfOk, IfErr, IfSome};
ghost use Rattle.protox_io.specs.Count.{Count, Rose, Later};
ghost use Rattle.protox_file_sources.specs.Causes.{HasCause, IsTold};
ghost use Rattle.protox_file_sources.specs.Library.{Library};
ghost use Rattle.protox_io.specs.FileNames.{name_of};

use crate::file::File;
use pbx_wire::{NoMemory, Text};
use protox_file_error::Error;
use std::alloc::Global;

/// Files by the names that they are imported by, and the names of paths.
pub trait FileResolver {
    /// Whether it tells what it has, what stands under each name, the name of each path that it resolves, the faults that
    /// opening a name may have, and the disks that it reads.
    ghost library: { Self → Library };

    /// How often it has failed.
    ghost count: { Self → Count };

    /// The name of the file at a path, if the path is one that it resolves. `NoMemory` comes for want of memory alone.
    fn resolve_path(&self, alloc: Global, path: &str) -> Result<Option<Text>, NoMemory>
        ensures told { IsTrue (library self.now).tells → IfOk result (λ name. name ≡ (library self.now).resolves path.now) }
        // What it resolves a path to is a name.
        ensures named { IfOk result (λ name. IfSome name (λ n. name_of n ≡ Some n)) };

    /// The file of a name. Opening changes no file and no name of a path.
    fn open_file(&mut self, alloc: Global, name: &str) -> Result<File, Error>
        ensures told { IsTrue (library self.old).tells → IsTold name.now ((library self.old).files name.now) result }
        ensures cause { IfErr result (HasCause (library self.old).may_fail name.now (Rose (count self.old) (count self.new))) }
        ensures keeps { library self.new ≡ library self.old }
        ensures later { Later (count self.old) (count self.new) };

    /// Whether the count of faults stands at its end, so that a further fault does not raise it.
    fn spent(&self) -> bool
        ensures { result ≡ (count self.now).spent };
}
