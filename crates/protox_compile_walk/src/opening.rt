ghost use Rattle.std.specs.Prelude.{◌≡◌, ◌≤◌, ◌<◌, ◌^◌, length, IfOk, IfErr, IsTrue, MatchOption, true, false, Some};
ghost use Rattle.std.specs.Option.{option_copied};
ghost use Rattle.std.specs.Str.{bytes_eq};
ghost use Rattle.protox_io.specs.Count.{Later};
ghost use Rattle.protox_file_sources.specs.Causes.{FaultCause};
ghost use Rattle.protox_io.specs.FileNames.{path_equal};
ghost use Rattle.protox_compile_walk.specs.Walk.{imports_of, declared_name};
ghost use Rattle.protox_compile_walk.specs.Refusals.{IsOpenOf, IsUnshadowed, StopsOpening, HasOpenCause};
ghost use Rattle.protox_compile_walk.specs.Resume.{ByLookup};

use crate::frame::Frame;
use crate::refusal::{mismatch, shadowed};
use pbx_wire::NoMemory;
use protox_file_sources::{Error, File, FileResolver, path_eq};
use std::alloc::Global;
use std::mem::drop;

/// The path that was asked and the path of the file, where these are two.
pub(crate) fn shadowed_by<'a>(
    asked: Option<&'a str>,
    own: Option<&'a str>,
) -> Option<(&'a str, &'a str)>
    ensures { MatchOption result (IsUnshadowed (option_copied asked.entry) (option_copied own.entry))
        (λ paths. (option_copied asked.entry ≡ Some paths.0.now) × (option_copied own.entry ≡ Some paths.1.now) × (path_equal paths.1.now paths.0.now ≡ false)) }
{
    match (asked, own) {
        (Some(asked), Some(own)) => {
            if path_eq(own, asked) {
                None
            } else {
                Some((asked, own))
            }
        }
        (None, _) => None,
        (Some(_), None) => None,
    }
}

fn is_named(file: &File, name: &str) -> bool
    ensures { result ≡ bytes_eq (declared_name file.now) name.now }
{
    file.name() == name
}

/// Opens a name, and tests the name that its file declares, and its path against the one that was asked.
pub(crate) fn open_frame<R: FileResolver>(
    resolver: &mut R,
    alloc: Global,
    name: &str,
    asked: Option<&str>,
) -> Result<Frame, Error>
    ensures opened { IsTrue (R.library resolver.old).tells →
        IfOk result (λ f. ByLookup name.now ((R.library resolver.old).files name.now) (λ lookup. IsOpenOf lookup name.now f)) }
    ensures unshadowed { IfOk result (λ f. IsUnshadowed (option_copied asked.entry) f.entry.path) }
    ensures fresh { IfOk result (λ f. (f.name ≡ name.now) × (f.next ≡ 0) × (length (imports_of f.entry) < 2 ^ 64)) }
    ensures stopped { IsTrue (R.library resolver.old).tells →
        IfErr result (λ e. ByLookup name.now ((R.library resolver.old).files name.now)
        (λ lookup. StopsOpening lookup name.now (option_copied asked.entry) e)) }
    ensures cause { IfErr result (HasOpenCause (option_copied asked.entry)
        (FaultCause (R.library resolver.old) (R.count resolver.old) (R.count resolver.new))) }
    ensures later { Later (R.count resolver.old) (R.count resolver.new) }
    ensures keeps { R.library resolver.new ≡ R.library resolver.old }
{
    let file = match resolver.open_file(alloc, name) {
        Ok(file) => file,
        Err(error) => return Err(error),
    };
    if !is_named(&file, name) {
        let error = mismatch(alloc, name, &file);
        drop(file);
        return Err(error);
    }
    if let Some((path, shadow)) = shadowed_by(asked, file.path()) {
        let error = shadowed(alloc, name, path, shadow);
        drop(file);
        return Err(error);
    }
    let _count = file.file_descriptor_proto().dependency.as_slice().len();
    match Frame::new(alloc, name, file) {
        Ok(frame) => Ok(frame),
        Err(NoMemory) => Err(Error::from(NoMemory)),
    }
}
