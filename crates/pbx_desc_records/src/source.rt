ghost use Rattle.std.specs.Prelude.{◌≡◌, None, [], IfOk, OnOk};

use crate::copy::{Duplicate, copy_to};
use pbx_wire::{List, NoMemory, Recs, Text, Texts, copy_recs};
use std::alloc::Global;

/// Where the parts of a file stand in its source, `google.protobuf.SourceCodeInfo`.
#[derive(Drop)]
pub struct SourceCodeInfo {
    /// The places, in the order in which they were found.
    pub location: List<Location>,
    /// The records of numbers that are no field of this one, in order of arrival.
    pub unknown: Recs,
}

impl SourceCodeInfo {
    /// The record with each field absent; takes no memory.
    pub fn new(alloc: Global) -> SourceCodeInfo
        ensures { result ≡ record { location = []; unknown = [] } }
    {
        SourceCodeInfo {
            location: List::new(alloc),
            unknown: Recs::new(alloc),
        }
    }

    /// An equal record. The only error is want of memory.
    pub fn copy(&self, alloc: Global) -> Result<SourceCodeInfo, NoMemory>
        ensures { IfOk result (λ copy. copy ≡ self.now) }
    {
        Ok(SourceCodeInfo {
            location: self.location.duplicate(alloc)?,
            unknown: copy_recs(&self.unknown, alloc)?,
        })
    }
}

/// Where a part of a file stands in its source, `google.protobuf.SourceCodeInfo.Location`.
#[derive(Drop)]
pub struct Location {
    /// The part: field numbers and indices on the way to it from the `FileDescriptorProto`.
    pub path: List<i32>,
    /// Its first line and column, its last line if that is another one, and the column behind it,
    /// each counted from 0.
    pub span: List<i32>,
    /// The comment right before it.
    pub leading_comments: Option<Text>,
    /// The comment right behind it.
    pub trailing_comments: Option<Text>,
    /// The comments before it that a blank line parts from it.
    pub leading_detached_comments: Texts,
    /// The records of numbers that are no field of this one, in order of arrival.
    pub unknown: Recs,
}

impl Location {
    /// The record with each field absent; takes no memory.
    pub fn new(alloc: Global) -> Location
        ensures { result ≡ record {
          path = [];
          span = [];
          leading_comments = None;
          trailing_comments = None;
          leading_detached_comments = [];
          unknown = [];
        } }
    {
        Location {
            path: List::new(alloc),
            span: List::new(alloc),
            leading_comments: None,
            trailing_comments: None,
            leading_detached_comments: Texts::new(alloc),
            unknown: Recs::new(alloc),
        }
    }

    /// An equal record. The only error is want of memory.
    pub fn copy(&self, alloc: Global) -> Result<Location, NoMemory>
        ensures { IfOk result (λ copy. copy ≡ self.now) }
    {
        let mut copy = Location::new(alloc);
        if let Err(error) = self.copy_parts(&mut copy, alloc) {
            drop(copy);
            return Err(error);
        }
        Ok(copy)
    }

    fn copy_parts(&self, to: &mut Location, alloc: Global) -> Result<(), NoMemory>
        ensures { OnOk result (to.new ≡ self.now) }
    {
        copy_to(&self.path, &mut to.path, alloc)?;
        copy_to(&self.span, &mut to.span, alloc)?;
        copy_to(&self.leading_comments, &mut to.leading_comments, alloc)?;
        copy_to(&self.trailing_comments, &mut to.trailing_comments, alloc)?;
        copy_to(
            &self.leading_detached_comments,
            &mut to.leading_detached_comments,
            alloc,
        )?;
        to.unknown = copy_recs(&self.unknown, alloc)?;
        Ok(())
    }
}
