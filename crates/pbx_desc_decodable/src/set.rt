ghost use Rattle.std.specs.Prelude.{◌≡◌, not, List as ListOf, option_map, find, IfOk};
ghost use Rattle.pbx_desc_records.specs.declared.file.FileDescriptorProto.{FileDescriptorProto as AFile};
ghost use Rattle.pbx_desc_encoding.specs.Sets.{IsSetOf};
ghost use Rattle.pbx_desc_decodable.specs.Sets.{is_undecodable, IsSetOrNone};

use crate::bytes::is_decodable_by_parts;
use crate::{FILE_SET, options_schema};
use pbx_desc_encoding::FileSet;
use pbx_desc_records::FileDescriptorProto;
use pbx_wire::NoMemory;
use std::alloc::Global;

/// The canonical encoding of a set of which each file can be read again, and None where one cannot: it nests more than
/// 100 levels, or has options that do not decode. The only error is want of memory.
pub fn encode_decodable(alloc: Global, set: FileSet) -> Result<Option<Vec<u8>>, NoMemory>
    ensures { IfOk result (λ bytes. (files : ListOf AFile) → IsSetOf set files → IsSetOrNone files (option_map (λ v. v.items) bytes)) }
{
    if set.deep_file().is_some() {
        return Ok(None);
    }
    let bytes = set.encode(alloc)?;
    let schema = options_schema(alloc)?;
    if is_decodable_by_parts(alloc, &schema, FILE_SET, bytes.as_slice())? {
        Ok(Some(bytes))
    } else {
        Ok(None)
    }
}

/// Whether the record can be read again from its encoding. The only error is want of memory.
pub fn is_decodable(alloc: Global, file: &FileDescriptorProto) -> Result<bool, NoMemory>
    ensures { IfOk result (λ yes. yes ≡ not (is_undecodable file.now)) }
{
    let set = FileSet::new(alloc)?.with_file(alloc, file)?;
    Ok(encode_decodable(alloc, set)?.is_some())
}

/// The first of the records that cannot be read again. The only error is want of memory.
pub fn first_undecodable<'a>(
    alloc: Global,
    files: &'a [FileDescriptorProto],
) -> Result<Option<&'a FileDescriptorProto>, NoMemory>
    ensures { IfOk result (λ found. option_map (λ file. file.now) found ≡ find is_undecodable files.now) }
{
    for file in files {
        if !is_decodable(alloc, file)? {
            return Ok(Some(file));
        }
    }
    Ok(None)
}
