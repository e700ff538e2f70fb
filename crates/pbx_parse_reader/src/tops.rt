//! Readers of what stands at the top of a file.

ghost use Rattle.std.specs.Prelude.{◌≡◌, ◌∷◌, ◌<◌, ◌≤◌, List, Option, option_map, length, not, true, false, OnOk, IfOk, Some, codes};
ghost use Rattle.pbx_parse_token.specs.Tokens as tokens;
ghost use Rattle.pbx_parse_token.specs.declared.token.Span.{Span};
ghost use Rattle.pbx_parse_tree.specs.declared.tree.Version.{Version};
ghost use Rattle.pbx_parse_tree.specs.Tree as tree;
ghost use Rattle.pbx_parse_tree.specs.Grammar.{syntax_then, first_then, package_then, import_then, top_then};
ghost use Rattle.pbx_parse_tree.specs.Conditions.{version_of, syntax_version, import_fits};
ghost use Rattle.pbx_parse_tree.specs.View.{literal_of, syntax_of, package_of, import_of, top_of};
ghost use Rattle.pbx_parse_reader.specs.Blocks.{top_behind, top_after};
ghost use Rattle.pbx_parse_reader.specs.Tops.{first_top_of};
ghost use Rattle.pbx_parse_reader.specs.View.{left, sees_word, ends_file, Reaches, TakesSome, TakesAny};

use crate::blocks::{BlockItem, Seen, add};
use crate::cursor::Cursor;
use crate::enums::enumeration;
use crate::error::ReadError;
use crate::fields::extend;
use crate::messages::message;
use crate::parts::{full_name, statement};
use crate::services::service;
use pbx_parse_token::{Word, stands_for};
use pbx_parse_tree::{Expected, Import, Literal, OptionPlace, Package, Syntax, Top, Version};
use std::alloc::Global;

/// How deep messages nest in one at the top of a file, which is itself the first of 31 levels.
const INNER_LEVELS: u32 = 30;

/// The version of the language that the literal names, if it names one.
fn version_named(literal: &Literal<'_>) -> Option<Version>
    ensures { (keyword equals end : Span) → result ≡ syntax_version (record { keyword = keyword; equals = equals; value = literal_of literal.now; end = end }) }
{
    if stands_for(literal.text, b"proto3") {
        return Some(Version::Proto3);
    }
    if stands_for(literal.text, b"proto2") {
        return Some(Version::Proto2);
    }
    None
}

fn some_syntax<'a>(cursor: &mut Cursor<'_, 'a>) -> Result<(Syntax<'a>, Version), ReadError>
    ensures found { IfOk result (λ x. left cursor.old ≡ syntax_then (syntax_of x.0) (left cursor.new)) }
    ensures fits { IfOk result (λ x. syntax_version (syntax_of x.0) ≡ Some x.1) }
    ensures only { (s : tree.Syntax) (v : Version) (rest : List tokens.Token) → syntax_version s ≡ Some v → left cursor.old ≡ syntax_then s rest →
        Reaches (λ x. syntax_of x.0) s rest result (left cursor.new) }
    ensures shorter { TakesSome result (left cursor.old) (left cursor.new) }
{
    let keyword = cursor.keyword("syntax", Expected::Keyword)?;
    let equals = cursor.mark(b'=')?;
    let left = cursor.tokens_left();
    let value = cursor.literal(Expected::Version)?;
    let Some(version) = version_named(&value) else {
        let expected = Expected::Version;
        return Err(ReadError::Unexpected { left, expected });
    };
    let end = cursor.mark(b';')?;
    let syntax = Syntax {
        keyword,
        equals,
        value,
        end,
    };
    Ok((syntax, version))
}

/// The syntax statement, if its keyword is next, and the version of the language that the file is written in.
pub fn syntax<'a>(cursor: &mut Cursor<'_, 'a>) -> Result<(Option<Syntax<'a>>, Version), ReadError>
    ensures found { IfOk result (λ x. left cursor.old ≡ first_then (option_map syntax_of x.0) (left cursor.new)) }
    ensures fits { IfOk result (λ x. version_of (option_map syntax_of x.0) ≡ Some x.1) }
    ensures only { (s : Option tree.Syntax) (v : Version) (rest : List tokens.Token) → version_of s ≡ Some v →
        sees_word (codes "syntax") rest ≡ false → left cursor.old ≡ first_then s rest →
        Reaches (λ x. option_map syntax_of x.0) s rest result (left cursor.new) }
    ensures shorter { TakesAny result (left cursor.old) (left cursor.new) }
{
    if cursor.sees_word("syntax") {
        let (syntax, version) = some_syntax(cursor)?;
        Ok((Some(syntax), version))
    } else {
        Ok((None, Version::Proto2))
    }
}

/// A package, where the file does not name one already.
fn package<'a>(
    alloc: Global,
    cursor: &mut Cursor<'_, 'a>,
    named: bool,
) -> Result<Package<'a>, ReadError>
    ensures found { IfOk result (λ p. left cursor.old ≡ package_then (package_of p) (left cursor.new)) }
    ensures fits { OnOk result (not named ≡ true) }
    ensures only { (p : tree.Package) (rest : List tokens.Token) → not named ≡ true → left cursor.old ≡ package_then p rest →
        Reaches package_of p rest result (left cursor.new) }
    ensures shorter { TakesSome result (left cursor.old) (left cursor.new) }
{
    if named {
        return Err(cursor.unexpected(Expected::OnePackage));
    }
    let keyword = cursor.keyword("package", Expected::Keyword)?;
    let full = full_name(alloc, cursor)?;
    let end = cursor.mark(b';')?;
    Ok(Package { keyword, full, end })
}

fn import<'a>(cursor: &mut Cursor<'_, 'a>) -> Result<Import<'a>, ReadError>
    ensures found { IfOk result (λ i. left cursor.old ≡ import_then (import_of i) (left cursor.new)) }
    ensures fits { IfOk result (λ i. import_fits (import_of i) ≡ true) }
    ensures only { (i : tree.Import) (rest : List tokens.Token) → import_fits i ≡ true → left cursor.old ≡ import_then i rest →
        Reaches import_of i rest result (left cursor.new) }
    ensures shorter { TakesSome result (left cursor.old) (left cursor.new) }
{
    let keyword = cursor.keyword("import", Expected::Keyword)?;
    let modifier = cursor.eat_modifier();
    let path = cursor.text(Expected::ImportName)?;
    let end = cursor.mark(b';')?;
    Ok(Import {
        keyword,
        modifier,
        path,
        end,
    })
}

/// What stands next at the top of a file.
#[derive(Clone, Copy)]
pub enum FirstTop {
    Empty,
    Message,
    Enum,
    Import,
    Package,
    Extend,
    Service,
    Option,
}

/// The sort of what is next, as its first word tells.
fn first_top(cursor: &Cursor<'_, '_>) -> FirstTop
    ensures { result ≡ first_top_of (left cursor.now) }
{
    let Some(token) = cursor.peek() else {
        return FirstTop::Option;
    };
    match token.word {
        Word::Mark(b';') => FirstTop::Empty,
        Word::Ident(text) => match text {
            "message" => FirstTop::Message,
            "enum" => FirstTop::Enum,
            "import" => FirstTop::Import,
            "package" => FirstTop::Package,
            "extend" => FirstTop::Extend,
            "service" => FirstTop::Service,
            _ => FirstTop::Option,
        },
        _ => FirstTop::Option,
    }
}

/// What could stand at the top of a file where no statement begins.
fn top_expected(cursor: &Cursor<'_, '_>) -> Expected {
    if cursor.sees_word("edition") {
        Expected::NoEdition
    } else {
        Expected::Top
    }
}

impl<'a> BlockItem<'a> for Top<'a> {
    ghost Tree = { tree.Top };

    ghost view = { top_of };

    ghost spelled = { top_then };

    ghost behind = { top_behind };

    ghost after = { top_after };

    ghost stop = { ends_file };

    #[tactic(auto, using(crate::proofs::Begin::top_goes))]
    fn stops(cursor: &Cursor<'_, 'a>) -> bool {
        cursor.peek().is_none()
    }

    fn read_behind(
        alloc: Global,
        cursor: &mut Cursor<'_, 'a>,
        version: Version,
        seen: &Seen<'a>,
    ) -> Result<Top<'a>, ReadError> {
        match first_top(cursor) {
            FirstTop::Empty => match cursor.mark(b';') {
                Ok(part) => Ok(Top::Empty(part)),
                Err(error) => Err(error),
            },
            FirstTop::Message => match message(alloc, cursor, version, INNER_LEVELS) {
                Ok(part) => Ok(Top::Message(part)),
                Err(error) => Err(error),
            },
            FirstTop::Enum => match enumeration(alloc, cursor, version) {
                Ok(part) => Ok(Top::Enum(part)),
                Err(error) => Err(error),
            },
            FirstTop::Import => match import(cursor) {
                Ok(part) => Ok(Top::Import(part)),
                Err(error) => Err(error),
            },
            FirstTop::Package => match package(alloc, cursor, seen.named) {
                Ok(part) => Ok(Top::Package(part)),
                Err(error) => Err(error),
            },
            FirstTop::Extend => match extend(alloc, cursor, version) {
                Ok(part) => Ok(Top::Extend(part)),
                Err(error) => Err(error),
            },
            FirstTop::Service => match service(alloc, cursor, version) {
                Ok(part) => Ok(Top::Service(part)),
                Err(error) => Err(error),
            },
            FirstTop::Option => {
                let expected = top_expected(cursor);
                match statement(
                    cursor,
                    expected,
                    OptionPlace::File,
                    seen.settings.as_slice(),
                ) {
                    Ok(part) => Ok(Top::Option(part)),
                    Err(error) => Err(error),
                }
            }
        }
    }

    fn note(&self, seen: &mut Seen<'a>) -> Result<(), ReadError> {
        match self {
            Top::Option(statement) => add(&mut seen.settings, statement.setting),
            Top::Package(_) => {
                seen.named = true;
                Ok(())
            }
            _ => Ok(()),
        }
    }
}
