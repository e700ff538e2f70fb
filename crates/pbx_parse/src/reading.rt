//! From source text to a record.

ghost use Rattle.std.specs.Prelude.{◌≡◌, ◌≤◌, ℕ, List, length, IfOk, IfErr};
ghost use Rattle.pbx_desc_records.specs.declared.file.FileDescriptorProto.{FileDescriptorProto as Record};
ghost use Rattle.pbx_parse_token.specs.View.{tokens_of};
ghost use Rattle.pbx_parse_tree.specs.View.{file_of};
ghost use Rattle.pbx_parse_locations.specs.Locations.{extent_of, locations_in};
ghost use Rattle.pbx_parse_translation.specs.Translation.{translate_of};
ghost use Rattle.pbx_parse.specs.Reads.{Reads};
ghost use Rattle.pbx_parse.specs.Errors.{Refuses, GivesUnlessMemory};

use crate::error::ParseError;
use crate::refusal::{of_lexing, of_reading};
use pbx_desc_records::FileDescriptorProto;
use pbx_parse_locations::{Extent, file_extent, locations};
use pbx_parse_reader::read_file;
use pbx_parse_token::{Token, lex};
use pbx_parse_translation::translate;
use pbx_parse_tree::File;
use pbx_wire::NoMemory;
use std::alloc::Global;

/// From the first token to the last. The tokens go, before the record takes memory.
fn whole(tokens: Vec<Token<'_>>) -> Extent
    ensures { result ≡ extent_of (tokens_of tokens.entry.items) }
{
    file_extent(tokens.as_slice())
}

/// The record of a file of this extent.
fn record(
    alloc: Global,
    name: &str,
    whole: Extent,
    file: File<'_>,
) -> Result<FileDescriptorProto, NoMemory>
    ensures { IfOk result (λ r. r ≡ translate_of name.now (file_of file.entry) (locations_in whole (file_of file.entry))) }
{
    match locations(alloc, whole, &file) {
        Ok(locations) => translate(alloc, name, file, locations),
        Err(error) => {
            // One call, which costs less proof than the drop of each part.
            drop(file);
            Err(error)
        }
    }
}

/// The descriptor record of a source file, which is given the name.
///
/// The source is in a profile of the proto2 and proto3 languages of the Protocol Buffers language specifications, which
/// `Reads` says and docs/DIFFERENCES.md lists. The record is the one before linking: the names of types as they
/// are written, JSON names where they are written, and the places of its parts in the source. Whether a name is
/// defined, whether numbers and names are distinct, and whether an imported file is there, is not tested here.
/// `Syntax` comes exactly where the source is no such file, and `NoMemory` for want of memory.
pub fn parse(alloc: Global, name: &str, source: &str) -> Result<FileDescriptorProto, ParseError>
    requires { length source.now ≤ 2147483647 }
    // What is given is what the source reads as.
    ensures found { IfOk result (λ f. Reads name.now source.now f) }
    // What the source reads as is given, unless memory runs out.
    ensures only { (f : Record) → Reads name.now source.now f → GivesUnlessMemory f result }
    // A source that is refused reads as nothing, the error is of this file, and its place counts from 1.
    ensures refused { IfErr result (Refuses name.now ((f : Record) → ¬ (Reads name.now source.now f))) }
{
    let tokens = match lex(alloc, source) {
        Ok(tokens) => tokens,
        Err(error) => return Err(of_lexing(alloc, name, source, error)),
    };
    let file = match read_file(alloc, tokens.as_slice()) {
        Ok(file) => file,
        Err(error) => return Err(of_reading(alloc, name, source, tokens.as_slice(), error)),
    };
    match record(alloc, name, whole(tokens), file) {
        Ok(record) => Ok(record),
        Err(_) => Err(ParseError::NoMemory),
    }
}

/// A name and a source have at most one record.
pub fn at_most_one()
    ensures { (name source : List ℕ) (f g : Record) → Reads name source f → Reads name source g → f ≡ g }
{
    pbx_parse_token::at_most_one();
    pbx_parse_tree::at_most_one();
}
