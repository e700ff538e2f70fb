// The packages of files, and what their names begin with (Protocol Buffers "Language Guide": Packages).
ghost use Rattle.std.specs.Prelude.{◌≡◌, ◌++◌, ℕ, List as ListOf, IfOk, OnOk};
ghost use Rattle.std.specs.List.{flat_map};
ghost use Rattle.pbx_link_names.specs.Packages.{is_there};
ghost use Rattle.pbx_link_definitions.specs.Names.{among};
ghost use Rattle.pbx_link_scope.specs.Scope.{packages};
ghost use Rattle.pbx_link_visible.specs.Names.{packages_at, HasAddedPackages};

use pbx_desc_records::FileDescriptorProto;
use pbx_link_names::PackageNames;
use pbx_link_scope::Pooled;
use pbx_wire::NoMemory;
use std::alloc::Global;

/// Adds the package of the file and what its name begins with. The only error is want of memory.
fn add_package(
    alloc: Global,
    file: &FileDescriptorProto,
    names: &mut PackageNames,
) -> Result<(), NoMemory>
    ensures { OnOk result (HasAddedPackages (packages file.now) names.old names.new) }
{
    match &file.package {
        Some(name) => names.add_name(alloc, name.as_str()),
        None => Ok(()),
    }
}

/// Adds the package of the file at the index of the pool, if there is one. The only error is want of memory.
fn add_package_at<P: Pooled>(
    alloc: Global,
    pool: &P,
    index: usize,
    names: &mut PackageNames,
) -> Result<(), NoMemory>
    ensures { OnOk result (HasAddedPackages (packages_at (P.files pool.now) index) names.old names.new) }
{
    match pool.file(index) {
        Some(file) => add_package(alloc, file, names),
        None => Ok(()),
    }
}

/// The packages of the file and of the files at the indexes of the pool, and what their names begin with. The only error is want of memory.
pub(crate) fn package_names<P: Pooled>(
    alloc: Global,
    pool: &P,
    indexes: &[usize],
    file: &FileDescriptorProto,
) -> Result<PackageNames, NoMemory>
    ensures { IfOk result (λ names. (q : ListOf ℕ) →
        is_there q names ≡ among (packages file.now ++ flat_map (packages_at (P.files pool.now)) indexes.now) q) }
{
    let mut names = PackageNames::new(alloc);
    add_package(alloc, file, &mut names)?;
    for index in indexes {
        add_package_at(alloc, pool, *index, &mut names)?;
    }
    Ok(names)
}
