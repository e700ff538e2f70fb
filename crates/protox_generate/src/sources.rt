//! The sources of the files, and the text of the tree.

ghost use Rattle.std.specs.Prelude.{◌≡◌, ◌∷◌, ◌++◌, [], IfOk, OnOk, string_bytes, codes};
ghost use Rattle.protox_generate.specs.Sources.{file_name as file_name_of, type_name as type_name_of, before, import_line, field as field_of, member as member_of};
ghost use Rattle.protox_generate.specs.Sources.{source as source_of, tree_text as tree_text_of, files_to};

use std::alloc::{AllocError, Global};

/// The name of a file.
pub(crate) fn file_name(alloc: Global, number: u16) -> Result<String, AllocError>
    ensures { IfOk result (λ name. string_bytes name ≡ file_name_of number) }
{
    format!(in alloc; "g{number}.proto")
}

/// The name of a file's message.
pub(crate) fn type_name(alloc: Global, number: u16) -> Result<String, AllocError>
    ensures { IfOk result (λ name. string_bytes name ≡ type_name_of number) }
{
    format!(in alloc; "G{number}")
}

/// The line that imports the file whose number is less by so much, if there is one.
#[tactic(auto, unfolding(crate::specs::Sources::before))]
fn import(alloc: Global, number: u16, distance: u16) -> Result<String, AllocError>
    ensures { IfOk result (λ line. string_bytes line ≡ before distance number import_line) }
{
    if distance < number {
        let name = file_name(alloc, number - distance)?;
        format!(in alloc; "import \"{name}\";\n")
    } else {
        Ok(String::new(alloc))
    }
}

/// The field, declared so, of the message whose number is less by so much, if there is one.
#[tactic(auto, unfolding(crate::specs::Sources::before))]
fn field(alloc: Global, number: u16, distance: u16, declared: &str) -> Result<String, AllocError>
    ensures { IfOk result (λ text. string_bytes text ≡ before distance number (field_of declared.now)) }
{
    if distance < number {
        format!(in alloc; " G{}{declared}", number - distance)
    } else {
        Ok(String::new(alloc))
    }
}

/// The source of a file.
#[tactic(auto, unfolding(crate::specs::Sources::source))]
pub(crate) fn source(alloc: Global, number: u16) -> Result<String, AllocError>
    ensures { IfOk result (λ text. string_bytes text ≡ source_of number) }
{
    let first = import(alloc, number, 1)?;
    let second = import(alloc, number, 2)?;
    let p = field(alloc, number, 1, " p = 3;")?;
    let q = field(alloc, number, 2, " q = 4;")?;
    format!(in alloc;
        "syntax = \"proto3\";\n{first}{second}message G{number} {{ int32 a = 1; string b = 2;{p}{q} }}\n"
    )
}

/// The member that begins so, for the number that is less by so much, if there is one.
#[tactic(auto, unfolding(crate::specs::Sources::before))]
fn member(alloc: Global, number: u16, distance: u16, opening: &str) -> Result<String, AllocError>
    ensures { IfOk result (λ text. string_bytes text ≡ before distance number (member_of opening.now)) }
{
    if distance < number {
        format!(in alloc; "{opening}{}}}", number - distance)
    } else {
        Ok(String::new(alloc))
    }
}

/// The text of the tree.
#[tactic(auto, unfolding(crate::specs::Sources::tree_text))]
pub(crate) fn tree_text(alloc: Global, number: u16) -> Result<String, AllocError>
    ensures { IfOk result (λ text. string_bytes text ≡ tree_text_of number) }
{
    let p = member(alloc, number, 1, ",\"p\":{\"a\":")?;
    let q = member(alloc, number, 2, ",\"q\":{\"a\":")?;
    format!(in alloc; "{{\"a\":{number},\"b\":\"g{number}\"{p}{q}}}")
}
