//! The opening of a path.

ghost use Rattle.std.specs.Prelude.{◌≡◌, ◌≤◌, [], IfOk, IfErr, OnOk, OnErr, IsTrue, length, true, false, Some, IfSome, if◌then◌else◌};
ghost use Rattle.std.specs.Option.{option_copied};
ghost use Rattle.protox_io.specs.Count.{Later};
ghost use Rattle.protox_file_sources.specs.Causes.{FaultCause};
ghost use Rattle.protox_io.specs.FileNames.{name_of};
ghost use Rattle.protox_file_sources.specs.Told.{ByLookups};
ghost use Rattle.protox_compile_walk.specs.Walk.{is_done};
ghost use Rattle.protox_compile_walk.specs.Opening.{mark, opening, open_name as open_name_in, open_done, path_in, root_of, grown, Accepted, asked_path};
ghost use Rattle.protox_compile_walk.specs.Opening.{is_opened, report_in, report_of};
ghost use Rattle.protox_compile_walk.specs.Refusals.{RefusesWith, RefusesOpening, HasOpeningCause, Grows};
ghost use Rattle.protox_compile_walk.specs.Opens.{Opens, IsRoot, IsShadowedBy, is_settled};

use crate::finished::FinishedFiles;
use crate::opening::shadowed_by;
use crate::refusal::{not_included, root_error, shadowed};
use crate::walk::visit_root;
use pbx_wire::{NoMemory, Text};
use protox_file_sources::{Error, FileResolver, names_name_themselves, path_to_file_name};
use std::alloc::Global;

/// What the name of a path was before the path was opened.
#[derive(Clone, Copy, Debug, PartialEq, Eq)]
pub enum Opened {
    /// The name was not compiled before the call.
    Compiled,

    /// The name was compiled and marked as an import.
    Import,

    /// The name was marked as opened.
    Again,
}

/// The name that a path asks for, and whether the resolver knows the path.
fn root_by<R: FileResolver>(
    resolver: &R,
    alloc: Global,
    path: &str,
) -> Result<Option<(Text, bool)>, NoMemory>
    ensures root { IsTrue (R.library resolver.now).tells → IfOk result (IsRoot (root_of (R.library resolver.now).resolves path.now) path.now) }
    ensures named { IfOk result (λ found. IfSome found (λ f. name_of f.0 ≡ Some f.0)) }
{
    names_name_themselves();
    match resolver.resolve_path(alloc, path)? {
        Some(name) => Ok(Some((name, true))),
        None => match path_to_file_name(alloc, path)? {
            Some(name) => Ok(Some((name, false))),
            None => Ok(None),
        },
    }
}

/// The path that was asked, which is none where the resolver does not know it.
fn asked_path(resolved: bool, path: &str) -> Option<&str>
    ensures { option_copied result ≡ asked_path resolved path.now }
{
    if resolved { Some(path) } else { None }
}

/// What is told of a name that was compiled.
fn compiled_report(is_opened: bool) -> Opened
    ensures { result ≡ (if is_opened then Opened.Again else Opened.Import) }
{
    if is_opened {
        Opened::Again
    } else {
        Opened::Import
    }
}

/// Marks a file that is finished, unless it has another path than the one that was asked.
fn open_again(
    alloc: Global,
    done: &mut FinishedFiles,
    name: &str,
    asked: Option<&str>,
) -> Result<Opened, Error>
    ensures ok { OnOk result (open_done name.now (option_copied asked.entry) (path_in name.now done.old) done.old ≡ (done.new, Accepted)) }
    ensures marked { OnOk result (done.new ≡ mark name.now done.old) }
    ensures report { IfOk result (λ report. report ≡ (if is_opened name.now done.old then Opened.Again else Opened.Import)) }
    ensures err { OnErr result (done.new ≡ done.old) }
    ensures refused { IfErr result (IsShadowedBy name.now (option_copied asked.entry) (path_in name.now done.old)) }
{
    if let Some((path, shadow)) = shadowed_by(asked, done.path_of(name)) {
        return Err(shadowed(alloc, name, path, shadow));
    }
    let report = compiled_report(done.is_opened(name));
    done.mark(name);
    Ok(report)
}

/// Opens the file of a name.
fn open_name<R: FileResolver>(
    resolver: &mut R,
    alloc: Global,
    limit: u32,
    done: &mut FinishedFiles,
    name: &str,
    resolved: bool,
    path: &str,
) -> Result<Opened, Error>
    requires { name_of name.now ≡ Some name.now }
    ensures ok { IsTrue (R.library resolver.old).tells →
        OnOk result (ByLookups (R.library resolver.old).files
        (λ lookups. open_name_in lookups limit (Some (name.now, asked_path resolved path.now)) done.old ≡ (done.new, Accepted))) }
    ensures err { IsTrue (R.library resolver.old).tells →
        IfErr result (λ e. ByLookups (R.library resolver.old).files
        (λ lookups. RefusesWith path.now (Some (name.now, asked_path resolved path.now))
        (λ ls. grown ls limit (Some (name.now, asked_path resolved path.now)) done.old)
        (λ ls. open_name_in ls limit (Some (name.now, asked_path resolved path.now)) done.old) lookups done.new e)) }
    ensures report { IfOk result (λ report. report ≡ report_in name.now done.old) }
    ensures opens { IfOk result (Opens done.old done.new) }
    ensures grows { OnErr result (Grows done.old done.new) }
    ensures root { OnErr result (is_done done.new name.now ≡ is_done done.old name.now) }
    ensures again { is_done done.old name.now ≡ true → resolver.new ≡ resolver.old }
    ensures unread { OnOk result (length done.new ≡ length done.old → resolver.new ≡ resolver.old) }
    ensures cause { IfErr result (HasOpeningCause limit path.now done.new (FaultCause (R.library resolver.old) (R.count resolver.old) (R.count resolver.new))) }
    ensures later { Later (R.count resolver.old) (R.count resolver.new) }
    ensures keeps { R.library resolver.new ≡ R.library resolver.old }
{
    let asked = asked_path(resolved, path);
    if done.contains(name) {
        return open_again(alloc, done, name, asked);
    }
    match visit_root(resolver, alloc, limit, done, name, asked) {
        Ok(()) => {
            done.mark(name);
            Ok(Opened::Compiled)
        }
        Err(error) => Err(root_error(alloc, path, error)),
    }
}

/// Opens a path: finishes its file with all that it imports, each behind what it imports itself, and marks it as opened.
/// Answers what the name of the path was before.
///
/// There may be at most `limit` files, those that are finished and those that are open together. A refused call leaves the
/// finished files with their marks, and adds the imports that were finished, as imports.
pub fn open_path<R: FileResolver>(
    resolver: &mut R,
    alloc: Global,
    limit: u32,
    done: &mut FinishedFiles,
    path: &str,
) -> Result<Opened, Error>
    ensures ok { IsTrue (R.library resolver.old).tells →
        OnOk result (ByLookups (R.library resolver.old).files
        (λ lookups. opening lookups (R.library resolver.old).resolves limit path.now done.old ≡ (done.new, Accepted))) }
    ensures err { IsTrue (R.library resolver.old).tells →
        IfErr result (λ e. ByLookups (R.library resolver.old).files
        (λ lookups. RefusesOpening lookups (R.library resolver.old).resolves limit path.now done.old done.new e)) }
    ensures report { IsTrue (R.library resolver.old).tells →
        IfOk result (λ report. report_of (R.library resolver.old).resolves path.now done.old ≡ Some report) }
    ensures opens { IfOk result (Opens done.old done.new) }
    ensures grows { OnErr result (Grows done.old done.new) }
    ensures again { IsTrue (R.library resolver.old).tells → is_settled (root_of (R.library resolver.old).resolves path.now) done.old ≡ true
        → resolver.new ≡ resolver.old }
    ensures unread { OnOk result (length done.new ≡ length done.old → resolver.new ≡ resolver.old) }
    ensures cause { IfErr result (HasOpeningCause limit path.now done.new (FaultCause (R.library resolver.old) (R.count resolver.old) (R.count resolver.new))) }
    ensures later { Later (R.count resolver.old) (R.count resolver.new) }
    ensures keeps { R.library resolver.new ≡ R.library resolver.old }
{
    match root_by(resolver, alloc, path) {
        Ok(Some((name, resolved))) => open_name(
            resolver,
            alloc,
            limit,
            done,
            name.as_str(),
            resolved,
            path,
        ),
        Ok(None) => Err(not_included(alloc, path)),
        Err(NoMemory) => Err(Error::from(NoMemory)),
    }
}
