// The unknown records of descriptor records, settled.
ghost use Rattle.std.specs.Prelude.{◌≡◌, [], map, IfOk};
ghost use Rattle.pbx_content.specs.declared.shape.FieldShape.{FieldShape};
ghost use Rattle.pbx_content.specs.Records.{sorted};
ghost use Rattle.pbx_link_record.specs.Unknown.{unread as unread_of, settled_unknown as settled_unknown_of, fields_of, ascend};

use pbx_wire::{NoMemory, Rec, Recs, writable_beside};
use std::alloc::Global;

/// The types of descriptor records that have fields.
#[derive(Clone, Copy)]
pub enum RecordType {
    /// `google.protobuf.FileDescriptorProto`.
    File,
    /// `google.protobuf.DescriptorProto`.
    Message,
    /// `google.protobuf.FieldDescriptorProto`.
    Field,
    /// `google.protobuf.DescriptorProto.ExtensionRange`.
    ExtensionRange,
    /// `google.protobuf.DescriptorProto.ReservedRange`.
    ReservedRange,
    /// `google.protobuf.OneofDescriptorProto`.
    Oneof,
    /// `google.protobuf.EnumDescriptorProto`.
    Enum,
    /// `google.protobuf.EnumDescriptorProto.EnumReservedRange`.
    EnumReservedRange,
    /// `google.protobuf.EnumValueDescriptorProto`.
    EnumValue,
    /// `google.protobuf.ServiceDescriptorProto`.
    Service,
    /// `google.protobuf.MethodDescriptorProto`.
    Method,
    /// `google.protobuf.SourceCodeInfo`.
    SourceCodeInfo,
    /// `google.protobuf.SourceCodeInfo.Location`.
    Location,
}

/// The numbers of the fields of the type.
fn field_numbers(of: RecordType) -> &'static [u32]
    ensures { result.now ≡ map (λ (f : FieldShape). f.number) (fields_of of) }
{
    match of {
        RecordType::File => &[1, 2, 3, 4, 5, 6, 7, 8, 9, 10, 11, 12],
        RecordType::Message => &[1, 2, 3, 4, 5, 6, 7, 8, 9, 10],
        RecordType::Field => &[1, 2, 3, 4, 5, 6, 7, 8, 9, 10, 17],
        RecordType::ExtensionRange | RecordType::EnumValue | RecordType::Service => &[1, 2, 3],
        RecordType::ReservedRange | RecordType::Oneof | RecordType::EnumReservedRange => &[1, 2],
        RecordType::Enum => &[1, 2, 3, 4, 5],
        RecordType::Method => &[1, 2, 3, 4, 5, 6],
        RecordType::SourceCodeInfo => &[1],
        RecordType::Location => &[1, 2, 3, 4, 6],
    }
}

/// Whether no number is below the one before it.
fn are_ascending(recs: &[Rec]) -> bool
    ensures { result ≡ ascend 0 recs.now }
{
    let mut least = 0;
    for rec in recs {
        let number = rec.number();
        if number < least {
            return false;
        }
        least = number;
    }
    true
}

/// The records in a list.
fn listed(alloc: Global, recs: Vec<Rec>) -> Result<Recs, NoMemory>
    ensures { IfOk result (λ list. list ≡ recs.items) }
{
    let mut list = Recs::with_capacity(alloc, recs.len())?;
    for rec in recs {
        list.add(rec)?;
    }
    Ok(list)
}

/// The records by ascending number, and those of one number in their order. Mostly they are so already.
fn in_order(alloc: Global, recs: Recs) -> Result<Recs, NoMemory>
    ensures { IfOk result (λ ordered. ordered ≡ sorted recs) }
{
    if are_ascending(recs.as_slice()) {
        return Ok(recs);
    }
    let mut recs = recs.into_vec();
    recs.sort_by_key(|rec| rec.number())?;
    listed(alloc, recs)
}

/// The unknown records of a record of the type, settled. The only error is want of memory.
pub(crate) fn settled_unknown(alloc: Global, recs: &Recs, of: RecordType) -> Result<Recs, NoMemory>
    ensures { IfOk result (λ settled. settled ≡ settled_unknown_of (fields_of of) recs.now) }
{
    let kept = writable_beside(alloc, recs, field_numbers(of))?;
    in_order(alloc, kept)
}

/// The records of options that may be written, in their order. The only error is want of memory.
#[tactic(auto, using(crate::proofs::Kept::written_is))]
pub(crate) fn written(alloc: Global, recs: &Recs) -> Result<Recs, NoMemory>
    ensures { IfOk result (λ kept. kept ≡ unread_of [] recs.now) }
{
    writable_beside(alloc, recs, &[])
}
