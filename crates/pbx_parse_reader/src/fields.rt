//! Readers of fields, and of the blocks that hold them.

ghost use Rattle.std.specs.Prelude.{◌≡◌, ◌∷◌, ◌<◌, ◌≤◌, List, Option, length, map, true, false, OnOk, IfOk};
ghost use Rattle.pbx_parse_token.specs.Tokens as tokens;
ghost use Rattle.pbx_parse_token.specs.declared.token.Span.{Span};
ghost use Rattle.pbx_parse_tree.specs.declared.tree.Scalar.{Scalar};
ghost use Rattle.pbx_parse_tree.specs.declared.tree.Label.{Label};
ghost use Rattle.pbx_parse_tree.specs.Tree as tree;
ghost use Rattle.pbx_parse_tree.specs.Words.{scalar_word, is_label_word};
ghost use Rattle.pbx_parse_tree.specs.Grammar.{worded, kind_then, tail_then, label_then, field_then, map_then, member_then, oneof_then};
ghost use Rattle.pbx_parse_tree.specs.Grammar.{extension_then, extend_then};
ghost use Rattle.pbx_parse_tree.specs.Conditions.{kind_fits, field_setting_fits, tail_fits, label_fits, field_fits, begins_with_no, is_key, map_fits};
ghost use Rattle.pbx_parse_tree.specs.Conditions.{member_fits, oneof_fits, extension_fits, extend_fits};
ghost use Rattle.pbx_parse_tree.specs.Fits.{allowed as allowed_of};
ghost use Rattle.pbx_parse_tree.specs.View.{kind_of, tail_of, field_of, map_of, member_of, oneof_of, extension_of, extend_of};
ghost use Rattle.pbx_parse_reader.specs.declared.fields.MapFront.{MapFront};
ghost use Rattle.pbx_parse_reader.specs.Fronts.{map_front_then};
ghost use Rattle.pbx_parse_reader.specs.View.{left, ends_block, label_follows, Reaches, TakesSome, TakesAny};

use crate::cursor::Cursor;
use crate::error::ReadError;
use crate::many::{ListItem, Production, all, all_closed};
use crate::parts::{block_head, kind, named_type, settings};
use pbx_parse_token::Span;
use pbx_parse_tree::{
    Allowed, Expected, Extend, Extension, Field, Kind, Label, MapField, Member, Oneof, Scalar,
    Tail, Version, key_fits,
};
use std::alloc::Global;

/// The type of a field, if it is one word that is no scalar's.
fn bare_type<'a>(allowed: Allowed<'_, 'a>) -> Option<&'a str> {
    match allowed {
        Allowed::Field(Kind::Named(name)) if name.dot.is_none() && name.full.more.is_empty() => {
            Some(name.full.first.text)
        }
        _ => None,
    }
}

/// What is said where a field's name is missing: that no map may begin there, or that a name has to stand there.
fn name_expected(cursor: &Cursor<'_, '_>, allowed: Allowed<'_, '_>) -> Expected {
    match bare_type(allowed) {
        Some("map") if cursor.sees(b'<') => Expected::NoMap,
        _ => Expected::Identifier,
    }
}

/// What is said where the `=` behind a field's name is missing. A label that cannot stand there was read as the field's type.
fn equals_expected(allowed: Allowed<'_, '_>) -> Expected {
    match bare_type(allowed) {
        Some("optional" | "required" | "repeated") => Expected::NoLabel,
        _ => Expected::Mark(b'='),
    }
}

/// What follows the type of a field, with settings that are allowed.
fn tail<'a>(
    alloc: Global,
    cursor: &mut Cursor<'_, 'a>,
    allowed: Allowed<'_, '_>,
) -> Result<Tail<'a>, ReadError>
    ensures found { IfOk result (λ t. left cursor.old ≡ tail_then (tail_of t) (left cursor.new)) }
    ensures fits { IfOk result (λ t. tail_fits (allowed_of allowed.entry) (tail_of t) ≡ true) }
    ensures only { (t : tree.Tail) (rest : List tokens.Token) → tail_fits (allowed_of allowed.entry) t ≡ true → left cursor.old ≡ tail_then t rest →
        Reaches tail_of t rest result (left cursor.new) }
    ensures shorter { TakesSome result (left cursor.old) (left cursor.new) }
{
    let name = cursor.name_or(name_expected(cursor, allowed))?;
    let equals = cursor.mark_or(b'=', equals_expected(allowed))?;
    let number = cursor.field_number()?;
    let settings = settings(alloc, cursor, allowed)?;
    let end = match cursor.mark_unless(b';', b'{', Expected::NoGroup) {
        Ok(end) => end,
        Err(error) => {
            drop(settings);
            return Err(error);
        }
    };
    Ok(Tail {
        name,
        equals,
        number,
        settings,
        end,
    })
}

/// The type of a field, and what follows it.
fn typed<'a>(alloc: Global, cursor: &mut Cursor<'_, 'a>) -> Result<(Kind<'a>, Tail<'a>), ReadError>
    ensures found { IfOk result (λ x. left cursor.old ≡ kind_then (kind_of x.0) (tail_then (tail_of x.1) (left cursor.new))) }
    ensures kind_fits { IfOk result (λ x. kind_fits (kind_of x.0) ≡ true) }
    ensures tail_fits { IfOk result (λ x. tail_fits (field_setting_fits (kind_of x.0)) (tail_of x.1) ≡ true) }
    ensures only { (k : tree.Kind) (t : tree.Tail) (rest : List tokens.Token) → kind_fits k ≡ true → tail_fits (field_setting_fits k) t ≡ true →
        left cursor.old ≡ kind_then k (tail_then t rest) →
        Reaches {Y = tree.Kind × tree.Tail} (λ x. (kind_of x.0, tail_of x.1)) (k, t) rest result (left cursor.new) }
    ensures shorter { TakesSome result (left cursor.old) (left cursor.new) }
{
    let kind = kind(alloc, cursor)?;
    let tail = tail(alloc, cursor, Allowed::Field(&kind))?;
    Ok((kind, tail))
}

/// The label of a field, which in proto2 has to be there.
fn label(cursor: &mut Cursor<'_, '_>, version: Version) -> Result<Option<(Label, Span)>, ReadError>
    ensures found { IfOk result (λ l. left cursor.old ≡ label_then l (left cursor.new)) }
    ensures ends { IfOk result (λ l. label_follows l (left cursor.new) ≡ true) }
    ensures fits { IfOk result (λ l. label_fits version l ≡ true) }
    ensures only { (l : Option (Label × Span)) (rest : List tokens.Token) → label_fits version l ≡ true → label_follows l rest ≡ true →
        left cursor.old ≡ label_then l rest → Reaches (λ x. x) l rest result (left cursor.new) }
    ensures shorter { TakesAny result (left cursor.old) (left cursor.new) }
{
    let label = cursor.eat_label();
    match version {
        Version::Proto2 if label.is_none() => Err(cursor.unexpected(Expected::Label)),
        _ => Ok(label),
    }
}

/// A field, or an extension.
pub fn field<'a>(
    alloc: Global,
    cursor: &mut Cursor<'_, 'a>,
    version: Version,
) -> Result<Field<'a>, ReadError>
    ensures found { IfOk result (λ f. left cursor.old ≡ field_then (field_of f) (left cursor.new)) }
    ensures fits { IfOk result (λ f. field_fits version (field_of f) ≡ true) }
    ensures begins { IfOk result (λ f. begins_with_no is_label_word (field_of f) ≡ true) }
    ensures only { (f : tree.Field) (rest : List tokens.Token) → field_fits version f ≡ true → begins_with_no is_label_word f ≡ true →
        left cursor.old ≡ field_then f rest → Reaches field_of f rest result (left cursor.new) }
    ensures shorter { TakesSome result (left cursor.old) (left cursor.new) }
{
    let label = label(cursor, version)?;
    let (kind, tail) = typed(alloc, cursor)?;
    Ok(Field { label, kind, tail })
}

/// The type of a map's key.
fn map_key(cursor: &mut Cursor<'_, '_>) -> Result<(Scalar, Span), ReadError>
    ensures found { IfOk result (λ k. left cursor.old ≡ worded (scalar_word k.0) k.1 ∷ left cursor.new) }
    ensures fits { IfOk result (λ k. is_key k.0 ≡ true) }
    ensures only { (s : Scalar) (p : Span) (rest : List tokens.Token) → is_key s ≡ true → left cursor.old ≡ worded (scalar_word s) p ∷ rest →
        Reaches {Y = Scalar × Span} (λ x. (x.0, x.1)) (s, p) rest result (left cursor.new) }
    ensures shorter { TakesSome result (left cursor.old) (left cursor.new) }
{
    let left = cursor.tokens_left();
    let Some((scalar, span)) = cursor.eat_scalar() else {
        return Err(cursor.unexpected(Expected::KeyType));
    };
    match key_fits(scalar) {
        Ok(()) => Ok((scalar, span)),
        Err(expected) => Err(ReadError::Unexpected { left, expected }),
    }
}

/// What stands before the type of a map's values.
#[derive(Clone, Copy)]
struct MapFront {
    keyword: Span,
    open: Span,
    key: Scalar,
    key_span: Span,
    comma: Span,
}

fn map_front(cursor: &mut Cursor<'_, '_>) -> Result<MapFront, ReadError>
    ensures found { IfOk result (λ f. left cursor.old ≡ map_front_then f (left cursor.new)) }
    ensures fits { IfOk result (λ f. is_key f.key ≡ true) }
    ensures only { (f : MapFront) (rest : List tokens.Token) → is_key f.key ≡ true → left cursor.old ≡ map_front_then f rest →
        Reaches (λ x. x) f rest result (left cursor.new) }
    ensures shorter { TakesSome result (left cursor.old) (left cursor.new) }
{
    let keyword = cursor.keyword("map", Expected::Keyword)?;
    let open = cursor.mark(b'<')?;
    let (key, key_span) = map_key(cursor)?;
    let comma = cursor.mark(b',')?;
    Ok(MapFront {
        keyword,
        open,
        key,
        key_span,
        comma,
    })
}

/// A map field.
pub fn map_field<'a>(alloc: Global, cursor: &mut Cursor<'_, 'a>) -> Result<MapField<'a>, ReadError>
    ensures found { IfOk result (λ m. left cursor.old ≡ map_then (map_of m) (left cursor.new)) }
    ensures fits { IfOk result (λ m. map_fits (map_of m) ≡ true) }
    ensures only { (m : tree.MapField) (rest : List tokens.Token) → map_fits m ≡ true → left cursor.old ≡ map_then m rest →
        Reaches map_of m rest result (left cursor.new) }
    ensures shorter { TakesSome result (left cursor.old) (left cursor.new) }
{
    let front = map_front(cursor)?;
    let value = kind(alloc, cursor)?;
    let close = cursor.mark(b'>')?;
    let tail = tail(alloc, cursor, Allowed::Map)?;
    Ok(MapField {
        keyword: front.keyword,
        open: front.open,
        key: front.key,
        key_span: front.key_span,
        comma: front.comma,
        value,
        close,
        tail,
    })
}

impl<'a> Production<'a> for Member<'a> {
    ghost Tree = { tree.Member };

    ghost view = { member_of };

    ghost spelled = { member_then };

    ghost fits = { λ _ m. member_fits m };

    ghost follows = { λ _. true };

    fn read(
        alloc: Global,
        cursor: &mut Cursor<'_, 'a>,
        _version: Version,
    ) -> Result<Member<'a>, ReadError> {
        if cursor.sees(b';') {
            return Ok(Member::Empty(cursor.mark(b';')?));
        }
        let (kind, tail) = typed(alloc, cursor)?;
        Ok(Member::Field(kind, tail))
    }
}

impl<'a> ListItem<'a> for Member<'a> {
    ghost stop = { ends_block };

    #[tactic(auto, using(crate::proofs::Begin::member_goes))]
    fn stops(cursor: &Cursor<'_, 'a>) -> bool {
        cursor.ends_block()
    }
}

/// A oneof with its members.
pub fn oneof<'a>(
    alloc: Global,
    cursor: &mut Cursor<'_, 'a>,
    version: Version,
) -> Result<Oneof<'a>, ReadError>
    ensures found { IfOk result (λ o. left cursor.old ≡ oneof_then (oneof_of o) (left cursor.new)) }
    ensures fits { IfOk result (λ o. oneof_fits (oneof_of o) ≡ true) }
    ensures only { (o : tree.Oneof) (rest : List tokens.Token) → oneof_fits o ≡ true → left cursor.old ≡ oneof_then o rest →
        Reaches oneof_of o rest result (left cursor.new) }
    ensures shorter { TakesSome result (left cursor.old) (left cursor.new) }
{
    let head = block_head(cursor, "oneof")?;
    let (members, close) = all_closed(alloc, cursor, version)?;
    Ok(Oneof {
        keyword: head.keyword,
        name: head.name,
        open: head.open,
        members,
        close,
    })
}

impl<'a> Production<'a> for Extension<'a> {
    ghost Tree = { tree.Extension };

    ghost view = { extension_of };

    ghost spelled = { extension_then };

    ghost fits = { extension_fits };

    ghost follows = { λ _. true };

    fn read(
        alloc: Global,
        cursor: &mut Cursor<'_, 'a>,
        version: Version,
    ) -> Result<Extension<'a>, ReadError> {
        if cursor.sees(b';') {
            return match cursor.mark(b';') {
                Ok(part) => Ok(Extension::Empty(part)),
                Err(error) => Err(error),
            };
        }
        match field(alloc, cursor, version) {
            Ok(part) => Ok(Extension::Field(part)),
            Err(error) => Err(error),
        }
    }
}

impl<'a> ListItem<'a> for Extension<'a> {
    ghost stop = { ends_block };

    #[tactic(auto, using(crate::proofs::Begin::extension_goes))]
    fn stops(cursor: &Cursor<'_, 'a>) -> bool {
        cursor.ends_block()
    }
}

/// A block of extensions.
pub fn extend<'a>(
    alloc: Global,
    cursor: &mut Cursor<'_, 'a>,
    version: Version,
) -> Result<Extend<'a>, ReadError>
    ensures found { IfOk result (λ e. left cursor.old ≡ extend_then (extend_of e) (left cursor.new)) }
    ensures fits { IfOk result (λ e. extend_fits version (extend_of e) ≡ true) }
    ensures only { (e : tree.Extend) (rest : List tokens.Token) → extend_fits version e ≡ true → left cursor.old ≡ extend_then e rest →
        Reaches extend_of e rest result (left cursor.new) }
    ensures shorter { TakesSome result (left cursor.old) (left cursor.new) }
{
    let keyword = cursor.keyword("extend", Expected::Keyword)?;
    let extendee = named_type(alloc, cursor)?;
    let open = cursor.mark(b'{')?;
    let extensions = all(alloc, cursor, version)?;
    let close = cursor.mark(b'}')?;
    Ok(Extend {
        keyword,
        extendee,
        open,
        extensions,
        close,
    })
}
