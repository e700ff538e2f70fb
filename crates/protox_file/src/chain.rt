//! Resolvers that are asked in turn.

ghost use Rattle.std.specs.Prelude.{◌≡◌, ◌<◌, ◌∷◌, ◌++◌, [], Some, map, vec_len, slice_index_or};
ghost use Rattle.std.specs.Prelude.{IsTrue, IfOk, IfErr, IfSome, OnOk, OnErr};
ghost use Rattle.protox_io.specs.Count.{Rose, Later};
ghost use Rattle.protox_io.specs.FileNames.{name_of};
ghost use Rattle.protox_file_sources.specs.Causes.{HasCause, IsTold};
ghost use Rattle.protox_file.specs.Chained.{chained, count_of_all, is_missing, members_of};

use pbx_wire::{NoMemory, Text};
use protox_file_sources::{Error, ErrorKind, File, FileResolver};
use std::alloc::Global;

type Member = Box<dyn FileResolver + Drop>;

/// Resolvers that are asked in turn: the first that resolves a path, or that has a file under a name, answers. Only where
/// a member finds no file under a name is the next one asked; any other error of a member is the answer at once.
///
/// A chain cannot be a member of a chain, since no box is made of a type that holds such boxes: add all members to one
/// chain. It cannot be copied, nor can a member be taken out again. A resolver with a lifetime cannot be boxed: let it own
/// what it reads. A function over any resolver takes it as `R: FileResolver`, and takes a chain too.
#[derive(Drop)]
pub struct ChainFileResolver {
    members: Vec<Box<dyn FileResolver + Drop>>,
}

impl ChainFileResolver {
    /// A chain without members, which has no file and resolves no path. It takes no memory.
    pub fn new(alloc: Global) -> Self
        ensures { members_of result ≡ [] }
    {
        ChainFileResolver {
            members: Vec::new(alloc),
        }
    }

    /// Adds a member that is asked after the others. It is refused for want of memory alone, and then handed back.
    pub fn add(
        &mut self,
        resolver: Box<dyn FileResolver + Drop>,
    ) -> Result<(), Box<dyn FileResolver + Drop>>
        ensures ok { OnOk result (members_of self.new ≡ members_of self.old ++ resolver ∷ []) }
        ensures err { OnErr result (members_of self.new ≡ members_of self.old) }
        ensures back { IfErr result (λ back. back ≡ resolver) }
    {
        match self.members.push(resolver) {
            Ok(()) => Ok(()),
            Err(refused) => Err(refused.value),
        }
    }
}

/// The name that a member resolves a path to.
fn resolve_member(alloc: Global, member: &Member, path: &str) -> Result<Option<Text>, NoMemory>
    ensures told { IsTrue (library member.now).tells → IfOk result (λ name. name ≡ (library member.now).resolves path.now) }
    ensures named { IfOk result (λ name. IfSome name (λ n. name_of n ≡ Some n)) }
{
    member.resolve_path(alloc, path)
}

/// Whether the count of a member stands at its end.
fn member_is_spent(member: &Member) -> bool
    ensures { result ≡ (count member.now).spent }
{
    member.spent()
}

/// The file that a member has under a name.
fn open_member(alloc: Global, member: &mut Member, name: &str) -> Result<File, Error>
    ensures told { IsTrue (library member.old).tells → IsTold name.now ((library member.old).files name.now) result }
    ensures cause { IfErr result (HasCause (library member.old).may_fail name.now (Rose (count member.old) (count member.new))) }
    ensures keeps { library member.new ≡ library member.old }
    ensures later { Later (count member.old) (count member.new) }
{
    member.open_file(alloc, name)
}

/// Whether the answer is that no file has the name.
pub(crate) fn is_not_found(answer: &Result<File, Error>) -> bool
    ensures { result ≡ is_missing answer.now }
{
    match answer {
        Ok(_) => false,
        Err(error) => matches!(error.kind(), ErrorKind::FileNotFound { .. }),
    }
}

/// The file that the member of this index has under a name.
fn open_at(
    alloc: Global,
    members: &mut Vec<Member>,
    index: usize,
    name: &str,
) -> Result<File, Error>
    requires { index < vec_len members.old }
    ensures len { vec_len members.new ≡ vec_len members.old }
    ensures told { IsTrue (slice_index_or (map (λ b. library b) members.old.items) index (chained [])).tells →
        IsTold name.now ((slice_index_or (map (λ b. library b) members.old.items) index (chained [])).files name.now) result }
    ensures cause { IfErr result (HasCause (chained (map (λ b. library b) members.old.items)).may_fail name.now
        (Rose (count_of_all (map (λ b. count b) members.old.items)) (count_of_all (map (λ b. count b) members.new.items)))) }
    ensures keeps { map (λ b. library b) members.new.items ≡ map (λ b. library b) members.old.items }
    ensures later { Later (count_of_all (map (λ b. count b) members.old.items)) (count_of_all (map (λ b. count b) members.new.items)) }
{
    open_member(alloc, &mut members[index], name)
}

impl FileResolver for ChainFileResolver {
    ghost library = { λ c. chained (map (λ b. (FileResolver-box b).library b.value) (members_of c)) };

    ghost count = { λ c. count_of_all (map (λ b. (FileResolver-box b).count b.value) (members_of c)) };

    fn resolve_path(&self, alloc: Global, path: &str) -> Result<Option<Text>, NoMemory> {
        for member in &self.members {
            if let Some(name) = resolve_member(alloc, member, path)? {
                return Ok(Some(name));
            }
        }
        Ok(None)
    }

    fn open_file(&mut self, alloc: Global, name: &str) -> Result<File, Error> {
        for index in 0..self.members.len() {
            let answer = open_at(alloc, &mut self.members, index, name);
            if !is_not_found(&answer) {
                return answer;
            }
            drop(answer);
        }
        Err(Error::file_not_found(alloc, name))
    }

    fn spent(&self) -> bool {
        for member in &self.members {
            if member_is_spent(member) {
                return true;
            }
        }
        false
    }
}
