ghost use Rattle.std.specs.Prelude.{◌≡◌, ◌≤◌, ◌<◌, ◌^◌, ◌+◌, ◌∷◌, [], true, false, IfOk, IfErr, OnOk, OnErr, IsTrue, length, ◌++◌};
ghost use Rattle.std.specs.Option.{option_copied};
ghost use Rattle.protox_io.specs.Count.{Later};
ghost use Rattle.protox_file_sources.specs.Causes.{FaultCause};
ghost use Rattle.protox_file_sources.specs.Told.{ByLookups};
ghost use Rattle.protox_compile_walk.specs.Walk.{imports_of, visits, Finished, is_done};
ghost use Rattle.protox_compile_walk.specs.Refusals.{Walk, Ends, HasStepCause, HasRootCause, Grows};
ghost use Rattle.protox_compile_walk.specs.Resume.{past, Follows, EndsWalks};

use crate::finished::FinishedFiles;
use crate::frame::Frame;
use crate::opening::open_frame;
use crate::refusal::too_many;
use crate::stack::Stack;
use crate::step::{Import, next_import, open_import};
use pbx_wire::NoMemory;
use protox_file_sources::{Error, FileResolver};
use std::alloc::Global;
use std::mem::drop;

/// Puts an open file among those that wait, past the import that it waits for.
fn suspend(alloc: Global, parents: &mut Stack, mut file: Frame) -> Result<(), NoMemory>
    requires { file.next < length (imports_of file.entry) }
    ensures ok { OnOk result (parents.new ≡ past file ∷ parents.old) }
    ensures err { OnErr result (parents.new ≡ parents.old) }
{
    file.advance();
    parents.push(alloc, file)
}

/// Finishes the imports of an open file that no other waits for, and then that file.
fn finish_all<R: FileResolver>(
    resolver: &mut R,
    alloc: Global,
    limit: u32,
    done: &mut FinishedFiles,
    root: Frame,
) -> Result<(), Error>
    requires start { root.next ≡ 0 }
    requires bound { length (imports_of root.entry) < 2 ^ 64 }
    requires room { length done.old + 1 ≤ limit }
    requires new { is_done done.old root.name ≡ false }
    ensures root { OnErr result (is_done done.new root.name ≡ false) }
    ensures there { OnOk result (is_done done.new root.name ≡ true) }
    ensures grows { Grows done.old done.new }
    ensures ok { IsTrue (R.library resolver.old).tells → (walk : Walk) → Follows (R.library resolver.old).files walk limit (root ∷ []) done.old →
        OnOk result (ByLookups (R.library resolver.old).files (λ lookups. walk lookups ≡ (done.new, Finished))) }
    ensures err { IsTrue (R.library resolver.old).tells → IfErr result (λ e. EndsWalks (R.library resolver.old).files limit (root ∷ []) done.old e done.new) }
    ensures cause { IfErr result (HasStepCause limit done.new (FaultCause (R.library resolver.old) (R.count resolver.old) (R.count resolver.new))) }
    ensures later { Later (R.count resolver.old) (R.count resolver.new) }
    ensures keeps { R.library resolver.new ≡ R.library resolver.old }
{
    let mut current = root;
    let mut parents = Stack::new(alloc);
    'walk: loop {
        if current.has_next() {
            match next_import(alloc, done, &parents, &current) {
                Ok(Import::Finished) => current.advance(),
                Ok(Import::Visit(name)) => {
                    let child = match open_import(
                        resolver,
                        alloc,
                        limit,
                        done,
                        &parents,
                        &current,
                        name.as_str(),
                    ) {
                        Ok(child) => child,
                        Err(error) => {
                            drop(current);
                            return Err(error);
                        }
                    };
                    if suspend(alloc, &mut parents, current).is_err() {
                        drop(child);
                        return Err(Error::from(NoMemory));
                    }
                    current = child;
                }
                Err(error) => {
                    drop(current);
                    return Err(error);
                }
            }
        } else {
            done.finish(alloc, current)?;
            match parents.pop() {
                Some(parent) => current = parent,
                None => return Ok(()),
            }
        }
    }
}

/// Visits a name from the files that are finished. Its file has the path that was asked, if one was, or none.
pub(crate) fn visit_root<R: FileResolver>(
    resolver: &mut R,
    alloc: Global,
    limit: u32,
    done: &mut FinishedFiles,
    root: &str,
    asked: Option<&str>,
) -> Result<(), Error>
    requires { is_done done.old root.now ≡ false }
    ensures root { OnErr result (is_done done.new root.now ≡ false) }
    ensures there { OnOk result (is_done done.new root.now ≡ true) }
    ensures grows { Grows done.old done.new }
    ensures ok { IsTrue (R.library resolver.old).tells →
        OnOk result (ByLookups (R.library resolver.old).files
        (λ lookups. visits lookups limit [] (option_copied asked.entry) root.now done.old ≡ (done.new, Finished))) }
    ensures err { IsTrue (R.library resolver.old).tells →
        IfErr result (λ e. ByLookups (R.library resolver.old).files
        (λ lookups. Ends root.now e (λ ls. visits ls limit [] (option_copied asked.entry) root.now done.old) lookups done.new)) }
    ensures cause { IfErr result
        (HasRootCause (option_copied asked.entry) limit done.new (FaultCause (R.library resolver.old) (R.count resolver.old) (R.count resolver.new))) }
    ensures later { Later (R.count resolver.old) (R.count resolver.new) }
    ensures keeps { R.library resolver.new ≡ R.library resolver.old }
{
    if done.len() >= limit as usize {
        return Err(too_many(limit));
    }
    match open_frame(resolver, alloc, root, asked) {
        Ok(frame) => finish_all(resolver, alloc, limit, done, frame),
        Err(error) => Err(error),
    }
}
