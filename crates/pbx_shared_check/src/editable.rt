// Copy on write: where a handle is the only one the value is written in place, and else a new value takes its place.
ghost use Rattle.std.specs.Prelude.{◌≡◌, IfOk, IfErr};

use crate::descriptor::Content;
use pbx_shared::Shared;
use std::alloc::{AllocError, Global};
use std::marker::Model;

// Other handles of the same fields.
fn share_fields(alloc: Global, fields: &[Shared<u64>]) -> Result<Vec<Shared<u64>>, AllocError>
    ensures { IfOk result (λ shared. shared.items ≡ fields.now) }
{
    let mut shared = Vec::new(alloc);
    for field in fields {
        shared.push(field.copy())?;
    }
    Ok(shared)
}

// A new value with another number, whose fields are shared with the old one.
fn renewed(alloc: Global, content: &Content, number: u64) -> Result<Shared<Content>, AllocError>
    ensures number { IfOk result (λ c. c.number ≡ number) }
    ensures fields { IfOk result (λ c. c.fields.items ≡ content.now.fields.items) }
{
    let fields = share_fields(alloc, content.fields.as_slice())?;
    Ok(Shared::new(alloc, Content { number, fields })?)
}

/// The content with another number. Other handles of it keep what they have. The error is want of memory.
pub fn renumbered(
    alloc: Global,
    content: Shared<Content>,
    number: u64,
) -> Result<Shared<Content>, AllocError>
    ensures number { IfOk result (λ c. c.number ≡ number) }
    ensures fields { IfOk result (λ c. c.fields.items ≡ content.fields.items) }
{
    match content.into_unique() {
        Ok(mut alone) => {
            alone.get_mut().number = number;
            Ok(alone.share())
        }
        Err(shared) => Ok(renewed(alloc, shared.as_ref(), number)?),
    }
}

// The same, where the content is to be had back if there is no memory.
fn put_number(
    alloc: Global,
    content: Shared<Content>,
    number: u64,
) -> (Shared<Content>, Result<(), AllocError>)
    ensures fields { result.0.fields.items ≡ content.fields.items }
    ensures ok { IfOk result.1 (λ _. result.0.number ≡ number) }
    ensures err { IfErr result.1 (λ _. result.0 ≡ content) }
{
    match content.into_unique() {
        Ok(mut alone) => {
            alone.get_mut().number = number;
            (alone.share(), Ok(()))
        }
        Err(shared) => match renewed(alloc, shared.as_ref(), number) {
            Ok(new) => (new, Ok(())),
            Err(refused) => (shared, Err(refused)),
        },
    }
}

/// A descriptor that is written through a `&mut`: the handle is taken out, and put back.
#[derive(Drop)]
pub struct Editable {
    content: Option<Shared<Content>>,
}

impl Model for Editable {
    ghost use Rattle.std.specs.Prelude.{IsSome};
    ghost use Rattle.pbx_shared_check.specs.Content.{Told, told_held};

    ghost Value = { Told };

    ghost view = { λ d. told_held d.content };

    ghost invariant = { λ d. IsSome d.content };
}

impl Editable {
    /// The content of the handle, which may have others.
    pub fn of(content: Shared<Content>) -> Editable
        ensures number { result.number ≡ content.number }
        ensures fields { result.fields ≡ content.fields.items }
    {
        Editable {
            content: Some(content),
        }
    }

    /// The number of the content.
    pub fn number(&self) -> u64
        ensures { result ≡ self.now.number }
    {
        match &self.content {
            Some(content) => content.as_ref().number,
            None => unreachable!(),
        }
    }

    /// Writes the number. Other handles of the content keep what they have. The error is want of memory, which only a
    /// content that has other handles can give.
    pub fn set_number(&mut self, alloc: Global, number: u64) -> Result<(), AllocError>
        ensures fields { self.new.fields ≡ self.old.fields }
        ensures ok { IfOk result (λ _. self.new.number ≡ number) }
        ensures err { IfErr result (λ _. self.new ≡ self.old) }
    {
        match self.content.take() {
            Some(content) => {
                let (content, done) = put_number(alloc, content, number);
                self.content = Some(content);
                done
            }
            None => unreachable!(),
        }
    }
}
