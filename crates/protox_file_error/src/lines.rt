//! What errors say.

ghost use Rattle.std.specs.Prelude.{◌≡◌, ◌∷◌, [], IfOk, OnOk, decimal, codes, string_bytes, ◌++◌, if◌then◌else◌};
ghost use Rattle.std.specs.Fmt.{signed_decimal};
ghost use Rattle.std.specs.List.{concat};
ghost use Rattle.protox_file_error.specs.Lines.{early_rule, late_rule, rule_text, dotted, parse_line, descriptor_line, line_of, at_file};
ghost use Rattle.protox_file_error.specs.Lines.{at_place, at_import, before_parse, before_descriptor, before_line, behind_line, long_line_of};

use crate::error::ErrorKind;
use itoa::Buffer;
use pbx_link_definitions::DescriptorError;
use pbx_parse::ParseError;
use pbx_wire::{NoMemory, Text};
use std::alloc::Global;

fn early_rule(rule: u8) -> &'static str
    ensures { result.now ≡ early_rule rule }
{
    match rule {
        1 => "file given twice",
        2 => "import missing",
        3 => "unknown syntax",
        4 => "bad name",
        5 => "name defined twice",
        6 => "bad field number",
        7 => "reference not bound",
        8 => "bad type",
        _ => "no such rule",
    }
}

fn late_rule(rule: u8) -> &'static str
    ensures { result.now ≡ late_rule rule }
{
    match rule {
        9 => "bad oneof",
        10 => "bad enum",
        11 => "bad default",
        12 => "bad map entry",
        13 => "bad label",
        14 => "uninterpreted option",
        15 => "message set",
        16 => "bad range",
        _ => "no such rule",
    }
}

fn rule_text(rule: u8) -> &'static str
    ensures { result.now ≡ rule_text rule }
{
    if rule < 9 {
        early_rule(rule)
    } else {
        late_rule(rule)
    }
}

/// Adds a number, behind a dot unless it is the first.
fn push_number(text: &mut String, first: bool, number: i32) -> Result<(), NoMemory>
    ensures { OnOk result (string_bytes text.new ≡ string_bytes text.old ++ (if first then [] else codes ".") ++ signed_decimal number) }
{
    let mut buffer = Buffer::new();
    if !first {
        text.push_str(".")?;
    }
    text.push_str(buffer.format(number))?;
    Ok(())
}

/// Numbers, joined by dots.
fn dotted(alloc: Global, numbers: &[i32]) -> Result<Text, NoMemory>
    ensures { IfOk result (λ text. text ≡ dotted numbers.now) }
{
    let mut text = String::new(alloc);
    let mut first = true;
    for number in numbers {
        push_number(&mut text, first, *number)?;
        first = false;
    }
    Text::from_str(alloc, text.as_str())
}

fn syntax_line(alloc: Global, expected: &str, found: &str) -> Result<Text, NoMemory>
    ensures { IfOk result (λ line. line ≡ concat (codes "expected " ∷ expected.now ∷ codes ", but found " ∷ found.now ∷ [])) }
{
    Text::joined(alloc, &["expected ", expected, ", but found ", found])
}

fn parse_line(alloc: Global, error: &ParseError) -> Result<Text, NoMemory>
    ensures { IfOk result (λ line. line ≡ concat (parse_line error.now)) }
{
    match error {
        ParseError::Syntax {
            expected,
            found,
            ..
        } => syntax_line(alloc, expected.as_str(), found.as_str()),
        ParseError::NoMemory => Text::from_str(alloc, "out of memory"),
    }
}

fn rule_line(alloc: Global, place: &[i32], rule: u8) -> Result<Text, NoMemory>
    ensures { IfOk result (λ line. line ≡ concat (codes "rule " ∷ decimal rule ∷ codes ": " ∷ rule_text rule ∷ codes " at " ∷ dotted place.now ∷ [])) }
{
    let place = dotted(alloc, place)?;
    let mut buffer = Buffer::new();
    let number = buffer.format(rule);
    Text::joined(
        alloc,
        &[
            "rule ",
            number,
            ": ",
            rule_text(rule),
            " at ",
            place.as_str(),
        ],
    )
}

fn descriptor_line(alloc: Global, error: &DescriptorError) -> Result<Text, NoMemory>
    ensures { IfOk result (λ line. line ≡ concat (descriptor_line error.now)) }
{
    match error {
        DescriptorError::Rule { place, rule, .. } => rule_line(alloc, place.as_slice(), *rule),
        DescriptorError::Decode(_) => Text::from_str(alloc, "record does not decode"),
        DescriptorError::NoMemory => Text::from_str(alloc, "out of memory"),
    }
}

fn limit_line(alloc: Global, limit: u32) -> Result<Text, NoMemory>
    ensures { IfOk result (λ line. line ≡ concat (codes "more than " ∷ decimal limit ∷ codes " files" ∷ [])) }
{
    let mut buffer = Buffer::new();
    Text::joined(alloc, &["more than ", buffer.format(limit), " files"])
}

fn shadow_line(alloc: Global, path: &str, shadow: &str) -> Result<Text, NoMemory>
    ensures { IfOk result (λ line. line ≡ concat (codes "path '" ∷ path.now ∷ codes "' is shadowed by '" ∷ shadow.now ∷ codes "' in the include paths" ∷ [])) }
{
    Text::joined(
        alloc,
        &[
            "path '",
            path,
            "' is shadowed by '",
            shadow,
            "' in the include paths",
        ],
    )
}

fn mismatch_line(alloc: Global, asked: &Text, declared: &Text) -> Result<Text, NoMemory>
    ensures { IfOk result (λ line. line ≡ concat (codes "file '" ∷ asked.now ∷ codes "' declares the name '" ∷ declared.now ∷ codes "'" ∷ [])) }
{
    let before = Text::between(alloc, "file '", asked, "' declares the name '")?;
    Text::between(alloc, before.as_str(), declared, "'")
}

/// The line of an error.
pub(crate) fn line(alloc: Global, kind: &ErrorKind) -> Result<Text, NoMemory>
    ensures { IfOk result (λ line. line ≡ concat (line_of kind.now)) }
{
    match kind {
        ErrorKind::Parse(error) => parse_line(alloc, error),
        ErrorKind::Check(error) => descriptor_line(alloc, error),
        ErrorKind::OpenFile { path, .. } => Text::between(alloc, "error opening file '", path, "'"),
        ErrorKind::FileTooLarge { name } => Text::between(alloc, "file '", name, "' is too large"),
        ErrorKind::FileInvalidUtf8 { name } => {
            Text::between(alloc, "file '", name, "' is not valid utf-8")
        }
        ErrorKind::FileNotFound { name } => Text::between(alloc, "file '", name, "' not found"),
        ErrorKind::ImportNotFound { name, .. } => Text::between(
            alloc,
            "import '",
            name,
            "' not found",
        ),
        ErrorKind::CircularImport { cycle, .. } => {
            Text::joined(alloc, &["import cycle detected: ", cycle.as_str()])
        }
        ErrorKind::FileNotIncluded { path } => {
            Text::between(alloc, "file '", path, "' is not in any include path")
        }
        ErrorKind::FileShadowed { path, shadow, .. } => {
            shadow_line(alloc, path.as_str(), shadow.as_str())
        }
        ErrorKind::DuplicateImport { name, .. } => {
            Text::between(alloc, "import '", name, "' was listed twice")
        }
        ErrorKind::Custom { text, .. } => Text::joined(alloc, &[text.as_str()]),
        ErrorKind::NameMismatch { asked, declared } => mismatch_line(alloc, asked, declared),
        ErrorKind::FileLimit { limit } => limit_line(alloc, *limit),
        ErrorKind::Undecodable { file } => Text::between(
            alloc,
            "file '",
            file,
            "' does not decode under the built-in schema",
        ),
        ErrorKind::NoMemory => Text::from_str(alloc, "out of memory"),
        ErrorKind::ImportEscapes { name, .. } => {
            Text::between(alloc, "import '", name, "' leaves the include folders")
        }
    }
}

fn at_file(alloc: Global, file: &str) -> Result<Text, NoMemory>
    ensures { IfOk result (λ before. before ≡ concat (at_file file.now)) }
{
    Text::joined(alloc, &[file, ": "])
}

fn at_place(alloc: Global, file: &str, line: u32, column: u32) -> Result<Text, NoMemory>
    ensures { IfOk result (λ before. before ≡ concat (at_place file.now line column)) }
{
    let mut lines = Buffer::new();
    let mut columns = Buffer::new();
    let line = lines.format(line);
    let column = columns.format(column);
    Text::joined(alloc, &[file, ":", line, ":", column, ": "])
}

fn at_import(alloc: Global, file: &str, place: Option<(u32, u32)>) -> Result<Text, NoMemory>
    ensures { IfOk result (λ before. before ≡ concat (at_import file.now place)) }
{
    match place {
        None => at_file(alloc, file),
        Some((line, column)) => at_place(alloc, file, line, column),
    }
}

fn before_parse(alloc: Global, error: &ParseError) -> Result<Text, NoMemory>
    ensures { IfOk result (λ before. before ≡ concat (before_parse error.now)) }
{
    match error {
        ParseError::Syntax {
            file,
            line,
            column,
            ..
        } => at_place(alloc, file.as_str(), *line, *column),
        ParseError::NoMemory => Text::from_str(alloc, ""),
    }
}

fn before_descriptor(alloc: Global, error: &DescriptorError) -> Result<Text, NoMemory>
    ensures { IfOk result (λ before. before ≡ concat (before_descriptor error.now)) }
{
    match error {
        DescriptorError::Rule { file, .. } => at_file(alloc, file.as_str()),
        DescriptorError::Decode(_) => Text::from_str(alloc, ""),
        DescriptorError::NoMemory => Text::from_str(alloc, ""),
    }
}

/// What stands before the line in the long line.
fn before_line(alloc: Global, kind: &ErrorKind) -> Result<Text, NoMemory>
    ensures { IfOk result (λ before. before ≡ concat (before_line kind.now)) }
{
    match kind {
        ErrorKind::Parse(error) => before_parse(alloc, error),
        ErrorKind::Check(error) => before_descriptor(alloc, error),
        ErrorKind::ImportNotFound { file, place, .. } => at_import(alloc, file.as_str(), *place),
        ErrorKind::DuplicateImport { file, place, .. } => at_import(alloc, file.as_str(), *place),
        ErrorKind::ImportEscapes { file, place, .. } => at_import(alloc, file.as_str(), *place),
        ErrorKind::OpenFile { .. }
        | ErrorKind::FileTooLarge { .. }
        | ErrorKind::FileInvalidUtf8 { .. }
        | ErrorKind::FileNotFound { .. }
        | ErrorKind::CircularImport { .. }
        | ErrorKind::FileNotIncluded { .. }
        | ErrorKind::FileShadowed { .. }
        | ErrorKind::Custom { .. }
        | ErrorKind::NameMismatch { .. }
        | ErrorKind::FileLimit { .. }
        | ErrorKind::Undecodable { .. }
        | ErrorKind::NoMemory => Text::from_str(alloc, ""),
    }
}

/// What stands behind the line in the long line.
fn behind_line(alloc: Global, kind: &ErrorKind) -> Result<Text, NoMemory>
    ensures { IfOk result (λ behind. behind ≡ concat (behind_line kind.now)) }
{
    if let ErrorKind::OpenFile { fault, .. } = kind {
        return Text::joined(alloc, &[": ", fault.as_str()]);
    }
    Text::from_str(alloc, "")
}

fn three(alloc: Global, before: &str, line: &str, behind: &str) -> Result<Text, NoMemory>
    ensures { IfOk result (λ whole. whole ≡ before.now ++ line.now ++ behind.now) }
{
    Text::joined(alloc, &[before, line, behind])
}

/// The long line of an error.
pub(crate) fn long_line(alloc: Global, kind: &ErrorKind) -> Result<Text, NoMemory>
    ensures { IfOk result (λ line. line ≡ concat (long_line_of kind.now)) }
{
    let before = before_line(alloc, kind)?;
    let line = line(alloc, kind)?;
    let behind = behind_line(alloc, kind)?;
    three(alloc, before.as_str(), line.as_str(), behind.as_str())
}
