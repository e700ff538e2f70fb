// Laws that callers use in their proofs. They have no body, but that they call laws.
ghost use Rattle.protox_compile_laws.specs.PathOrder.{ClosesInEachOrder, OpensInEachOrder};

use protox_file_sources::looked_up_once;

/// Where paths are all opened from finished files that stand behind their imports, the same paths in any order are all opened too: the
/// same files are finished, each with the same record, path and mark, and only the order of files differs. So it is with what `open_files`
/// leaves, over a resolver that tells its files.
pub fn closes_in_each_order()
    ensures closes { ClosesInEachOrder }
    ensures opens { OpensInEachOrder }
{
    looked_up_once();
}
