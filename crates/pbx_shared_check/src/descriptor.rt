// A descriptor over a handle, and a message that holds one beside handles in an `Option` and a `Vec`.
ghost use Rattle.std.specs.Prelude.{◌≡◌, ◌<◌, [], ◌∷◌, ◌++◌, length, IfErr, IfOk, IfSome, IsSome, IsTrue, slice_index};

use pbx_shared::Shared;
use std::alloc::{AllocError, Global};
use std::marker::Model;

/// What the handles of a descriptor share.
#[derive(Drop)]
pub struct Content {
    pub number: u64,
    pub fields: Vec<Shared<u64>>,
}

/// A handle of a content. A clause sees its number and fields.
#[derive(Drop)]
pub struct Descriptor {
    content: Shared<Content>,
}

impl Model for Descriptor {
    ghost use Rattle.pbx_shared_check.specs.Content.{Told, told};

    ghost Value = { Told };

    ghost view = { λ d. told d.content };
}

impl Descriptor {
    /// The first handle of a content.
    pub fn new(alloc: Global, content: Content) -> Result<Descriptor, AllocError>
        ensures number { IfOk result (λ d. d.number ≡ content.number) }
        ensures fields { IfOk result (λ d. d.fields ≡ content.fields.items) }
    {
        Ok(Descriptor {
            content: Shared::new(alloc, content)?,
        })
    }

    /// Another handle of the same content. It takes no memory and cannot fail.
    pub fn copy(&self) -> Descriptor
        ensures { result ≡ self.now }
    {
        Descriptor {
            content: self.content.copy(),
        }
    }

    /// The number of the content.
    pub fn number(&self) -> u64
        ensures { result ≡ self.now.number }
    {
        self.content.as_ref().number
    }

    /// The fields of the content, in their order.
    pub fn fields(&self) -> &[Shared<u64>]
        ensures { result.now ≡ self.now.fields }
    {
        self.content.as_ref().fields.as_slice()
    }
}

/// A message of a descriptor, with handles in an `Option` and in a `Vec`.
#[derive(Drop)]
pub struct Message {
    pub descriptor: Descriptor,
    pub parent: Option<Shared<u64>>,
    pub fields: Vec<Shared<u64>>,
}

impl Message {
    /// An empty message below a parent.
    pub fn of(alloc: Global, descriptor: &Descriptor, parent: &Shared<u64>) -> Message
        ensures descriptor { result.descriptor ≡ descriptor.now }
        ensures parent { IfSome result.parent (λ p. p ≡ parent.now) }
        ensures has_parent { IsSome result.parent }
        ensures fields { result.fields.items ≡ [] }
    {
        Message {
            descriptor: descriptor.copy(),
            parent: Some(parent.copy()),
            fields: Vec::new(alloc),
        }
    }

    /// Adds a handle of the field at the end. The error is want of memory.
    pub fn add(&mut self, field: &Shared<u64>) -> Result<(), AllocError>
        ensures descriptor { self.new.descriptor ≡ self.old.descriptor }
        ensures parent { self.new.parent ≡ self.old.parent }
        ensures ok { IfOk result (λ _. self.new.fields.items ≡ self.old.fields.items ++ (field.now ∷ [])) }
        ensures err { IfErr result (λ _. self.new.fields.items ≡ self.old.fields.items) }
    {
        self.fields.push(field.copy())?;
        Ok(())
    }

    /// Another handle of the field at `i`.
    pub fn field(&self, i: usize) -> Shared<u64>
        requires { i < length self.now.fields.items }
        ensures { result ≡ slice_index self.now.fields.items i }
    {
        self.fields[i].copy()
    }
}

/// Handles are compared by their values, also where they stand in an `Option`.
#[derive(Debug, PartialEq, Drop)]
pub struct Pair {
    pub left: Shared<u64>,
    pub right: Option<Shared<u64>>,
}

/// Whether the two pairs have equal values.
pub fn same(a: &Pair, b: &Pair) -> bool
    ensures { IsTrue result → a.now.left ≡ b.now.left }
{
    a == b
}
