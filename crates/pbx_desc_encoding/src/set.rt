ghost use Rattle.std.specs.Prelude.{◌≡◌, ◌+◌, ◌≤◌, [], ◌∷◌, ◌++◌, Some, None, if◌then◌else◌, position, List as ListOf, IfOk, OnOk};
ghost use Rattle.std.specs.Option.{option_or};
ghost use Rattle.pbx_wire.specs.Text.{text as text_of_rec};
ghost use Rattle.pbx_content.specs.Encoding.{encoded, payload, content_recs};
ghost use Rattle.pbx_content.specs.Same.{Decodes};
ghost use Rattle.pbx_content.specs.Sound.{depth as depth_of, IsSound, PartsFit};
ghost use Rattle.pbx_desc_shapes.specs.DescriptorShape.{descriptor_shape as descriptor_shape_of};
ghost use Rattle.pbx_desc_records.specs.declared.file.FileDescriptorProto.{FileDescriptorProto as AFile};
ghost use Rattle.pbx_desc_encoding.specs.Building.{IsWritten};
ghost use Rattle.pbx_desc_encoding.specs.Content.{file_content, files_content};
ghost use Rattle.pbx_desc_encoding.specs.Sets.{DecodesSet, IsSetOf, is_deep_file};

use crate::contents::{FieldList, HasContents};
use crate::file::write_file;
use crate::levels::is_shallow;
use crate::parts::{put_fields, put_payload};
use pbx_content::{Schema, encoding_decodes};
use pbx_content_codec::depth;
use pbx_desc_records::FileDescriptorProto;
use pbx_desc_shapes::{descriptor_place as place, descriptor_shape};
use pbx_wire::{NoMemory, Recs};
use std::alloc::Global;
use std::marker::Model;

/// The text of a `google.protobuf.FileDescriptorSet` to which files are added one by one.
#[derive(Drop)]
pub struct FileSet {
    schema: Schema,
    text: Vec<u8>,
    len: usize,
    deep: Option<usize>,
}

impl Model for FileSet {
    ghost use Rattle.std.specs.Prelude.{◌≡◌};
    ghost use Rattle.pbx_desc_shapes.specs.DescriptorShape.{descriptor_shape};
    ghost use Rattle.pbx_desc_encoding.specs.Sets.{SetText};

    ghost Value = { SetText };

    ghost view = { λ set. record { text = set.text.items; len = set.len; deep = set.deep } };

    ghost invariant = { λ set. set.schema ≡ descriptor_shape };
}

/// Whether a file nests more than 100 levels. Only where it has groups, or messages in very many messages, is its content
/// made to tell.
#[tactic(auto, using(crate::proofs::Sets::shallow_is))]
fn is_deep(alloc: Global, file: &FileDescriptorProto) -> Result<bool, NoMemory>
    ensures { IfOk result (λ deep. deep ≡ is_deep_file file.now) }
{
    if is_shallow(file) {
        return Ok(false);
    }
    let contents = file.to_contents(alloc)?;
    Ok(depth(&contents) > 100)
}

/// One more.
fn next(len: usize) -> Result<usize, NoMemory>
    ensures { IfOk result (λ next. next ≡ len + 1) }
{
    len.checked_add(1).ok_or(NoMemory)
}

/// The first that is deep, or this one if it is.
fn first_deep(first: Option<usize>, is_deep: bool, index: usize) -> Option<usize>
    ensures { result ≡ option_or first (if is_deep then Some index else None) }
{
    if is_deep {
        first.or(Some(index))
    } else {
        first
    }
}

/// Puts the file behind the text, as a record of the set.
fn put_file(
    alloc: Global,
    schema: &Schema,
    file: &FileDescriptorProto,
    out: &mut Vec<u8>,
) -> Result<(), NoMemory>
    requires { schema.now ≡ descriptor_shape_of }
    ensures text { OnOk result (out.new.items
        ≡ out.old.items ++ text_of_rec (payload 1 (content_recs descriptor_shape_of 1 (file_content file.now)))) }
    ensures sound { OnOk result (IsSound descriptor_shape_of 1 (file_content file.now)) }
{
    let mut own = Vec::new(alloc);
    write_file(alloc, schema, file, &mut own)?;
    put_payload(1, own.as_slice(), out)
}

impl FileSet {
    /// No files. The only error is want of memory.
    pub fn new(alloc: Global) -> Result<FileSet, NoMemory>
        ensures { IfOk result (λ set. IsSetOf set []) }
    {
        Ok(FileSet {
            schema: descriptor_shape(alloc)?,
            text: Vec::new(alloc),
            len: 0,
            deep: None,
        })
    }

    /// The set with the file behind the others. The only error is want of memory.
    pub fn with_file(self, alloc: Global, file: &FileDescriptorProto) -> Result<FileSet, NoMemory>
        ensures { IfOk result (λ set. (files : ListOf AFile) → IsSetOf self files → IsSetOf set (files ++ file.now ∷ [])) }
    {
        let is_deep = is_deep(alloc, file)?;
        let FileSet {
            schema,
            mut text,
            len,
            deep,
        } = self;
        put_file(alloc, &schema, file, &mut text)?;
        Ok(FileSet {
            schema,
            text,
            len: next(len)?,
            deep: first_deep(deep, is_deep, len),
        })
    }

    /// The index of the first file that nests more than 100 levels, which no reader of the set takes.
    pub fn deep_file(&self) -> Option<usize>
        ensures first { (files : ListOf AFile) → IsSetOf self.now files → result ≡ position is_deep_file files }
        ensures fits { (files : ListOf AFile) → IsSetOf self.now files → result ≡ None → PartsFit (files_content files) }
    {
        self.deep
    }

    /// The canonical encoding of the set. The only error is want of memory.
    pub fn encode(self, alloc: Global) -> Result<Vec<u8>, NoMemory>
        ensures bytes { IfOk result (λ v. (files : ListOf AFile) → IsSetOf self files → v.items ≡ encoded descriptor_shape_of 0 (files_content files)) }
        ensures decodes { IfOk result (λ v. (files : ListOf AFile) → IsSetOf self files → depth_of (files_content files) ≤ 100
            → Decodes descriptor_shape_of 0 v.items (files_content files)) }
        ensures parts { IfOk result (λ v. (files : ListOf AFile) → IsSetOf self files → PartsFit (files_content files)
            → DecodesSet v.items (files_content files)) }
    {
        encoding_decodes();
        let FileSet {
            schema,
            mut text,
            ..
        } = self;
        let none = FieldList::new(alloc);
        let unknown = Recs::new(alloc);
        put_fields(
            alloc,
            &schema,
            place::FILE_SET,
            none,
            &unknown,
            &[1],
            &mut text,
        )?;
        Ok(text)
    }
}
