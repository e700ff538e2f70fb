ghost use Rattle.std.specs.Prelude.{◌≡◌, ◌≤◌, ◌<◌, ◌^◌, ◌+◌, ◌∷◌, IfOk, IfErr, OnOk, IsTrue, ℕ, List, length};
ghost use Rattle.std.specs.Str.{bytes_eq};
ghost use Rattle.pbx_link_definitions.specs.Names.{among};
ghost use Rattle.protox_io.specs.Count.{Later};
ghost use Rattle.protox_file_sources.specs.Causes.{FaultCause};
ghost use Rattle.protox_file_sources.specs.Told.{Told};
ghost use Rattle.protox_compile_walk.specs.Walk.{imports_of};
ghost use Rattle.protox_compile_walk.specs.Refusals.{HasStepCause};
ghost use Rattle.protox_compile_walk.specs.Resume.{past, names_of, AdvancesOrVisits, IsVisit, EndsWalks, LeadsTo};

use crate::finished::FinishedFiles;
use crate::frame::Frame;
use crate::opening::open_frame;
use crate::refusal::{circular, duplicate, escaping, import_error, too_many};
use crate::stack::Stack;
use pbx_wire::{NoMemory, Text};
use protox_file_sources::{Error, FileResolver};
use protox_io::escapes;
use std::alloc::Global;

/// What an import asks for: nothing, since it is finished, or a visit of this name.
#[derive(Drop)]
pub(crate) enum Import {
    Finished,
    Visit(Text),
}

fn has_name(frame: &Frame, name: &str) -> bool
    ensures { result ≡ bytes_eq frame.now.name name.now }
{
    frame.name() == name
}

/// Whether a name is that of an open file.
fn is_open(parents: &Stack, current: &Frame, name: &str) -> bool
    ensures { result ≡ among (names_of (current.now ∷ parents.now)) name.now }
{
    has_name(current, name) || parents.holds(name)
}

/// Looks at the import that comes next. Nothing is opened for a name that leaves the include folders.
pub(crate) fn next_import(
    alloc: Global,
    done: &FinishedFiles,
    parents: &Stack,
    current: &Frame,
) -> Result<Import, Error>
    requires { current.now.next < length (imports_of current.now.entry) }
    ensures ok { IfOk result (AdvancesOrVisits current.now parents.now done.now) }
    ensures err { (files : List ℕ → Told) (limit : ℕ) → IfErr result (λ e. EndsWalks files limit (current.now ∷ parents.now) done.now e done.now) }
    ensures cause { (limit : ℕ) → IfErr result (HasStepCause limit done.now (λ _. ⊥)) }
{
    let name = current.import();
    if current.lists_before(name) {
        return Err(duplicate(alloc, current, name));
    }
    if escapes(name) {
        return Err(escaping(alloc, current, name));
    }
    if is_open(parents, current, name) {
        return Err(circular(alloc, parents, current, name));
    }
    if done.contains(name) {
        return Ok(Import::Finished);
    }
    match Text::from_str(alloc, name) {
        Ok(name) => Ok(Import::Visit(name)),
        Err(NoMemory) => Err(Error::from(NoMemory)),
    }
}

/// Opens the import that comes next.
pub(crate) fn open_import<R: FileResolver>(
    resolver: &mut R,
    alloc: Global,
    limit: u32,
    done: &FinishedFiles,
    parents: &Stack,
    current: &Frame,
    name: &str,
) -> Result<Frame, Error>
    requires more { current.now.next < length (imports_of current.now.entry) }
    requires visit { IsVisit current.now parents.now done.now name.now }
    requires room { length done.now + length parents.now + 1 ≤ limit }
    ensures child { IsTrue (R.library resolver.old).tells →
        IfOk result (λ child. LeadsTo (R.library resolver.old).files limit (current.now ∷ parents.now) done.now
        (child ∷ past current.now ∷ parents.now) done.now) }
    ensures fresh { IfOk result (λ child. (child.name ≡ name.now) × (child.next ≡ 0) × (length (imports_of child.entry) < 2 ^ 64)) }
    ensures room { OnOk result (length done.now + length parents.now + 2 ≤ limit) }
    ensures err { IsTrue (R.library resolver.old).tells → IfErr result
        (λ e. EndsWalks (R.library resolver.old).files limit (current.now ∷ parents.now) done.now e done.now) }
    ensures cause { IfErr result (HasStepCause limit done.now (FaultCause (R.library resolver.old) (R.count resolver.old) (R.count resolver.new))) }
    ensures later { Later (R.count resolver.old) (R.count resolver.new) }
    ensures keeps { R.library resolver.new ≡ R.library resolver.old }
{
    if done.len() + parents.len() + 1 >= limit as usize {
        return Err(too_many(limit));
    }
    match open_frame(resolver, alloc, name, None) {
        Ok(child) => Ok(child),
        Err(error) => Err(import_error(alloc, current, name, error)),
    }
}
