// The packages of a pool's files, and what their names begin with (Protocol Buffers "Language Guide": Packages).
ghost use Rattle.std.specs.Prelude.{ℕ, List as ListOf, Option as OptionOf, OnOk};
ghost use Rattle.pbx_link_names.specs.Packages.{IsSound};
ghost use Rattle.pbx_link_pool.specs.Packages.{IsMissingOf, HasPackage, IsAlikeBut, IsForgotten};

use pbx_link_names::{Missing, PackageNames};
use pbx_wire::{NoMemory, Text};
use std::alloc::Global;

/// What of the package is not there yet, if there is a package.
pub(crate) fn missing_package<'a>(
    packages: &PackageNames,
    package: &'a Option<Text>,
) -> Option<Missing<'a>>
    ensures { IsMissingOf packages.now «package».now result }
{
    match package {
        Some(name) => packages.missing(name.as_str()),
        None => None,
    }
}

/// Adds the package of which this is missing. Where memory runs out, some of it is added. The only error is want of memory.
pub(crate) fn add_package(
    alloc: Global,
    packages: &mut PackageNames,
    missing: Option<Missing<'_>>,
) -> Result<(), NoMemory>
    ensures added { OnOk result ((«package» : OptionOf (ListOf ℕ)) → IsSound packages.old
        → IsMissingOf packages.old «package» missing.entry → HasPackage «package» packages.old packages.new) }
    ensures alike { IsAlikeBut missing.entry packages.old packages.new }
{
    match missing {
        Some(missing) => packages.add(alloc, missing),
        None => Ok(()),
    }
}

/// Takes out what was added of the package of which this was missing.
pub(crate) fn forget_package(packages: &mut PackageNames, missing: Option<Missing<'_>>)
    ensures { IsForgotten missing.entry packages.old packages.new }
{
    if let Some(missing) = missing {
        packages.forget(missing);
    }
}
