ghost use Rattle.std.specs.Prelude.{◌≡◌, ◌∷◌, ◌++◌, [], length, map, reverse, IfOk, OnOk, OnErr, MatchOption};
ghost use Rattle.pbx_link_definitions.specs.Names.{among};

use crate::frame::Frame;
use crate::indexes::Indexes;
use pbx_wire::{NoMemory, Text, Texts};
use std::alloc::Global;
use std::marker::Model;

/// The open files that wait for an import, the innermost first, and the index of each name.
#[derive(Drop)]
pub(crate) struct Stack {
    frames: Vec<Frame>,
    names: Indexes,
}

impl Model for Stack {
    ghost use Rattle.std.specs.Prelude.{List, reverse};
    ghost use Rattle.std.specs.Coded.{codes};
    ghost use Rattle.pbx_desc_records.specs.contracts.file.FileDescriptorProto as proto;
    ghost use Rattle.protox_compile_walk.specs.Walk.{Open};
    ghost use Rattle.protox_compile_walk.specs.Resume.{names_of};
    ghost use Rattle.protox_compile_walk.specs.Indexes.{AreIndexed};

    ghost Value = { List Open };

    ghost coded = { Prim.hlevel (codes, proto.the_row.coded) };

    ghost view = { λ s. reverse s.frames.items };

    ghost invariant = { λ s. AreIndexed s.names (names_of s.frames.items) };
}

impl Stack {
    pub(crate) fn new(alloc: Global) -> Stack
        ensures { result ≡ [] }
    {
        Stack {
            frames: Vec::new(alloc),
            names: Indexes::new(alloc),
        }
    }

    pub(crate) fn len(&self) -> usize
        ensures { result ≡ length self.now }
    {
        self.frames.len()
    }

    /// Puts a file on top. A refused call changes nothing.
    pub(crate) fn push(&mut self, alloc: Global, frame: Frame) -> Result<(), NoMemory>
        ensures ok { OnOk result (self.new ≡ frame ∷ self.old) }
        ensures err { OnErr result (self.new ≡ self.old) }
    {
        let index = self.frames.len();
        self.frames.push(frame)?;
        if self
            .names
            .push(alloc, self.frames[index].name(), index)
            .is_err()
        {
            self.frames.pop();
            return Err(NoMemory);
        }
        Ok(())
    }

    pub(crate) fn pop(&mut self) -> Option<Frame>
        ensures { MatchOption result ((self.old ≡ []) × (self.new ≡ [])) (λ frame. self.old ≡ frame ∷ self.new) }
    {
        let frame = self.frames.pop()?;
        self.names.pop(frame.name(), self.frames.len());
        Some(frame)
    }

    /// Whether a file of this name is on it, by log n comparisons.
    pub(crate) fn holds(&self, name: &str) -> bool
        ensures { result ≡ among (map (λ f. f.name) self.now) name.now }
    {
        self.names.get(name).is_some()
    }

    /// The names of the open files, the outermost first.
    pub(crate) fn names(&self, alloc: Global) -> Result<Texts, NoMemory>
        ensures { IfOk result (λ names. names ≡ reverse (map (λ f. f.name) self.now)) }
    {
        names_of_all(alloc, &self.frames)
    }
}

fn names_of_all(alloc: Global, frames: &[Frame]) -> Result<Texts, NoMemory>
    ensures { IfOk result (λ names. names ≡ map (λ f. f.name) frames.now) }
{
    let mut names = Texts::new(alloc);
    for frame in frames {
        names.add(Text::from_str(alloc, frame.name())?)?;
    }
    Ok(names)
}
