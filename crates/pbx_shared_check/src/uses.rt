// What no clause of `pbx_shared`'s users says: that a call can succeed, and who sees what is written.
use crate::descriptor::{Content, Descriptor, Message, Pair, same};
use crate::editable::{Editable, renumbered};
use pbx_shared::Shared;
use std::alloc::{AllocError, Global};

// The number 1, and two handles of the field 10.
fn content(alloc: Global) -> Result<Content, AllocError> {
    let mut fields = Vec::new(alloc);
    let first = Shared::new(alloc, 10u64)?;
    fields.push(first.copy())?;
    fields.push(first)?;
    Ok(Content { number: 1, fields })
}

// The second handle of a content, when the first is gone.
fn second(alloc: Global) -> Result<Descriptor, AllocError> {
    let one = Descriptor::new(alloc, content(alloc)?)?;
    let two = one.copy();
    drop(one);
    Ok(two)
}

/// The number of a content, and of its fields, when the first handle is gone.
pub fn share_content(alloc: Global) -> Result<[u64; 2], AllocError> {
    let two = second(alloc)?;
    Ok([two.number(), two.fields().len() as u64])
}

// A field is added: how many there are then, the descriptor's number and the field.
fn add_field(message: &mut Message, field: &Shared<u64>) -> Result<[u64; 3], AllocError> {
    message.add(field)?;
    Ok([
        message.fields.len() as u64,
        message.descriptor.number(),
        *message.field(0),
    ])
}

/// How many fields a message has, the number of its descriptor, and its field, 5.
pub fn make_message(alloc: Global) -> Result<[u64; 3], AllocError> {
    let two = second(alloc)?;
    let parent = Shared::new(alloc, 5u64)?;
    let mut message = Message::of(alloc, &two, &parent);
    add_field(&mut message, &parent)
}

// The number 5 is written, and then 6: what is read at each.
fn write_twice(alloc: Global, edited: &mut Editable) -> Result<[u64; 2], AllocError> {
    edited.set_number(alloc, 5)?;
    let first = edited.number();
    edited.set_number(alloc, 6)?;
    Ok([first, edited.number()])
}

/// What is written through one of two handles, once and again, and what the other one has then.
pub fn edit(alloc: Global) -> Result<[u64; 3], AllocError> {
    let one = Shared::new(alloc, content(alloc)?)?;
    let two = one.copy();
    let mut edited = Editable::of(one);
    let [first, second] = write_twice(alloc, &mut edited)?;
    Ok([first, second, two.as_ref().number])
}

/// The number of a handle whose copy is renumbered to 7, and that of what comes of it.
pub fn renumber(alloc: Global) -> Result<[u64; 2], AllocError> {
    let two = Shared::new(alloc, content(alloc)?)?;
    let three = renumbered(alloc, two.copy(), 7)?;
    Ok([two.as_ref().number, three.as_ref().number])
}

// A pair of a handle of 3 and no other.
fn pair(alloc: Global) -> Result<Pair, AllocError> {
    Ok(Pair {
        left: Shared::new(alloc, 3u64)?,
        right: None,
    })
}

/// Whether pairs of equal values are the same, and those where one lacks a value.
pub fn compare(alloc: Global) -> Result<[u64; 2], AllocError> {
    let one = pair(alloc)?;
    let two = pair(alloc)?;
    let three = Pair {
        left: one.left.copy(),
        right: Some(one.left.copy()),
    };
    Ok([u64::from(same(&one, &two)), u64::from(same(&one, &three))])
}
