//! Readers of names, types, options and ranges.

ghost use Rattle.std.specs.Prelude.{◌≡◌, ◌∷◌, ◌<◌, ◌≤◌, List, Option, option_map, length, map, true, false, OnOk, IfOk, IfErr};
ghost use Rattle.pbx_parse_token.specs.Tokens as tokens;
ghost use Rattle.pbx_parse_token.specs.declared.token.Span.{Span};
ghost use Rattle.pbx_parse_tree.specs.Tree as tree;
ghost use Rattle.pbx_parse_tree.specs.Tree.{all_of};
ghost use Rattle.pbx_parse_tree.specs.Grammar.{marked, worded, named, name_then, full_then, type_then, kind_then, constant_then, setting_then};
ghost use Rattle.pbx_parse_tree.specs.Grammar.{list_then, next_then, separated_then, some_settings_then, settings_then, statement_then};
ghost use Rattle.pbx_parse_tree.specs.Conditions.{type_fits as type_fits_of, kind_fits, option_fits, all_fit, settings_of as list_of};
ghost use Rattle.pbx_parse_tree.specs.Fits.{allowed as allowed_of, may_follow, wanted_fits};
ghost use Rattle.pbx_parse_tree.specs.View.{name_of, next_of, separated_of, type_of, kind_of, constant_of, setting_of};
ghost use Rattle.pbx_parse_tree.specs.View.{settings_of as some_settings_of, statement_of};
ghost use Rattle.pbx_parse_reader.specs.View.{left, sees_mark, FailsNot, Reaches, TakesSome, TakesAny};

use crate::blocks::add;
use crate::cursor::Cursor;
use crate::error::ReadError;
use crate::many::{Production, separated};
use pbx_parse_token::Span;
use pbx_parse_tree::{
    Allowed, Constant, Expected, Head, Kind, Name, OptionPlace, Separated, Setting, Settings,
    Statement, TypeName, Version, Wanted, name_fits, type_fits, value_fits,
};
use std::alloc::Global;

impl<'a> Production<'a> for Name<'a> {
    ghost Tree = { tree.Name };

    ghost view = { name_of };

    ghost spelled = { name_then };

    ghost fits = { λ _ _. true };

    ghost follows = { λ _. true };

    fn read(
        _alloc: Global,
        cursor: &mut Cursor<'_, 'a>,
        _version: Version,
    ) -> Result<Name<'a>, ReadError> {
        cursor.name()
    }
}

/// The keyword, the name and the `{` that a block with a name begins with.
pub fn block_head<'a>(cursor: &mut Cursor<'_, 'a>, keyword: &str) -> Result<Head<'a>, ReadError>
    ensures found { IfOk result (λ h. left cursor.old ≡ worded keyword.now h.keyword ∷ named (name_of h.name) ∷ marked 123 h.open ∷ left cursor.new) }
    ensures only { (k : Span) (n : tree.Name) (s : Span) (rest : List tokens.Token) →
        left cursor.old ≡ worded keyword.now k ∷ named n ∷ marked 123 s ∷ rest →
        Reaches {Y = Span × tree.Name × Span} (λ h. (h.keyword, name_of h.name, h.open)) (k, n, s) rest result (left cursor.new) }
    ensures shorter { TakesSome result (left cursor.old) (left cursor.new) }
{
    let keyword = cursor.keyword(keyword, Expected::Keyword)?;
    let name = cursor.name()?;
    let open = cursor.mark(b'{')?;
    Ok(Head {
        keyword,
        name,
        open,
    })
}

/// Names with dots between them.
#[tactic(auto, using(crate::proofs::Begin::all_names))]
pub fn full_name<'a>(
    alloc: Global,
    cursor: &mut Cursor<'_, 'a>,
) -> Result<Separated<Name<'a>>, ReadError>
    ensures found { IfOk result (λ x. left cursor.old ≡ full_then (separated_of name_of x) (left cursor.new)) }
    ensures only { (f : tree.Separated tree.Name) (rest : List tokens.Token) → sees_mark 46 rest ≡ false → left cursor.old ≡ full_then f rest →
        Reaches (separated_of name_of) f rest result (left cursor.new) }
    ensures shorter { TakesSome result (left cursor.old) (left cursor.new) }
{
    // Names are alike in all versions.
    separated(alloc, cursor, Version::Proto3, b'.')
}

/// The name of a type, which may be a scalar type's word.
#[tactic(auto, using(crate::proofs::Begin::type_is_next))]
pub fn type_name<'a>(alloc: Global, cursor: &mut Cursor<'_, 'a>) -> Result<TypeName<'a>, ReadError>
    ensures found { IfOk result (λ t. left cursor.old ≡ type_then (type_of t) (left cursor.new)) }
    ensures only { (t : tree.TypeName) (rest : List tokens.Token) → sees_mark 46 rest ≡ false → left cursor.old ≡ type_then t rest →
        Reaches type_of t rest result (left cursor.new) }
    ensures shorter { TakesSome result (left cursor.old) (left cursor.new) }
{
    if !cursor.sees_type() {
        return Err(cursor.unexpected(Expected::Type));
    }
    let dot = cursor.eat(b'.');
    let full = full_name(alloc, cursor)?;
    Ok(TypeName { dot, full })
}

/// The type of a field.
#[tactic(auto, using(crate::proofs::Begin::type_begins))]
pub fn kind<'a>(alloc: Global, cursor: &mut Cursor<'_, 'a>) -> Result<Kind<'a>, ReadError>
    ensures found { IfOk result (λ k. left cursor.old ≡ kind_then (kind_of k) (left cursor.new)) }
    ensures fits { IfOk result (λ k. kind_fits (kind_of k) ≡ true) }
    ensures only { (k : tree.Kind) (rest : List tokens.Token) → kind_fits k ≡ true → sees_mark 46 rest ≡ false → left cursor.old ≡ kind_then k rest →
        Reaches kind_of k rest result (left cursor.new) }
    ensures shorter { TakesSome result (left cursor.old) (left cursor.new) }
{
    if let Some((scalar, span)) = cursor.eat_scalar() {
        return Ok(Kind::Scalar(scalar, span));
    }
    Ok(Kind::Named(type_name(alloc, cursor)?))
}

/// The name of a type that is no scalar.
pub fn named_type<'a>(alloc: Global, cursor: &mut Cursor<'_, 'a>) -> Result<TypeName<'a>, ReadError>
    ensures found { IfOk result (λ t. left cursor.old ≡ type_then (type_of t) (left cursor.new)) }
    ensures fits { IfOk result (λ t. type_fits_of (type_of t) ≡ true) }
    ensures only { (t : tree.TypeName) (rest : List tokens.Token) → type_fits_of t ≡ true → sees_mark 46 rest ≡ false →
        left cursor.old ≡ type_then t rest → Reaches type_of t rest result (left cursor.new) }
    ensures shorter { TakesSome result (left cursor.old) (left cursor.new) }
{
    let left = cursor.tokens_left();
    let name = type_name(alloc, cursor)?;
    match type_fits(&name) {
        Ok(()) => Ok(name),
        Err(expected) => Err(ReadError::Unexpected { left, expected }),
    }
}

/// The value of an option.
pub fn constant<'a>(cursor: &mut Cursor<'_, 'a>) -> Result<Constant<'a>, ReadError>
    ensures found { IfOk result (λ c. left cursor.old ≡ constant_then (constant_of c) (left cursor.new)) }
    ensures only { (c : tree.Constant) (rest : List tokens.Token) → left cursor.old ≡ constant_then c rest →
        Reaches constant_of c rest result (left cursor.new) }
    ensures shorter { TakesSome result (left cursor.old) (left cursor.new) }
{
    if cursor.sees_number() {
        return Ok(Constant::Number(cursor.number(Expected::Integer)?));
    }
    if cursor.sees_string() {
        return Ok(Constant::String(cursor.literal(Expected::String)?));
    }
    Ok(Constant::Identifier(cursor.name_or(Expected::Constant)?))
}

/// A value that is wanted.
fn wanted_value<'a>(
    cursor: &mut Cursor<'_, 'a>,
    wanted: Wanted<'_, '_>,
) -> Result<Constant<'a>, ReadError>
    ensures found { IfOk result (λ c. left cursor.old ≡ constant_then (constant_of c) (left cursor.new)) }
    ensures fits { IfOk result (λ c. wanted_fits wanted.entry (constant_of c) ≡ true) }
    ensures only { (c : tree.Constant) (rest : List tokens.Token) → wanted_fits wanted.entry c ≡ true → left cursor.old ≡ constant_then c rest →
        Reaches constant_of c rest result (left cursor.new) }
    ensures shorter { TakesSome result (left cursor.old) (left cursor.new) }
{
    let left = cursor.tokens_left();
    let value = constant(cursor)?;
    match value_fits(wanted, &value) {
        Ok(()) => Ok(value),
        Err(expected) => Err(ReadError::Unexpected { left, expected }),
    }
}

/// The name of an option.
fn option_name<'a>(cursor: &mut Cursor<'_, 'a>) -> Result<Name<'a>, ReadError>
    ensures found { IfOk result (λ n. left cursor.old ≡ named (name_of n) ∷ left cursor.new) }
    ensures only { (n : tree.Name) (rest : List tokens.Token) → left cursor.old ≡ named n ∷ rest → Reaches name_of n rest result (left cursor.new) }
    ensures shorter { TakesSome result (left cursor.old) (left cursor.new) }
{
    let expected = if cursor.sees(b'(') {
        Expected::NoCustomOption
    } else {
        Expected::Identifier
    };
    cursor.name_or(expected)
}

/// A setting that may stand behind those that were seen. Its name is judged before what follows it is read.
pub fn setting<'a>(
    cursor: &mut Cursor<'_, 'a>,
    allowed: Allowed<'_, '_>,
    seen: &[Setting<'_>],
) -> Result<Setting<'a>, ReadError>
    ensures found { IfOk result (λ s. left cursor.old ≡ setting_then (setting_of s) (left cursor.new)) }
    ensures fits { IfOk result (λ s. may_follow (allowed_of allowed.entry) (map setting_of seen.now) (setting_of s) ≡ true) }
    ensures only { (s : tree.Setting) (rest : List tokens.Token) → may_follow (allowed_of allowed.entry) (map setting_of seen.now) s ≡ true →
        left cursor.old ≡ setting_then s rest → Reaches setting_of s rest result (left cursor.new) }
    ensures shorter { TakesSome result (left cursor.old) (left cursor.new) }
{
    let left = cursor.tokens_left();
    let name = option_name(cursor)?;
    let wanted = match name_fits(allowed, &name, seen) {
        Ok(wanted) => wanted,
        Err(expected) => return Err(ReadError::Unexpected { left, expected }),
    };
    let equals = cursor.mark(b'=')?;
    let value = wanted_value(cursor, wanted)?;
    Ok(Setting {
        name,
        equals,
        value,
    })
}

/// A comma, and a setting that may stand behind those that were seen.
fn next_setting<'a>(
    cursor: &mut Cursor<'_, 'a>,
    allowed: Allowed<'_, '_>,
    seen: &[Setting<'_>],
) -> Result<(Span, Setting<'a>), ReadError>
    ensures found { IfOk result (λ x. left cursor.old ≡ next_then 44 setting_then (next_of setting_of x) (left cursor.new)) }
    ensures fits { IfOk result (λ x. may_follow (allowed_of allowed.entry) (map setting_of seen.now) (setting_of x.1) ≡ true) }
    ensures only { (x : Span × tree.Setting) (rest : List tokens.Token) → may_follow (allowed_of allowed.entry) (map setting_of seen.now) x.1 ≡ true →
        left cursor.old ≡ next_then 44 setting_then x rest → Reaches (next_of setting_of) x rest result (left cursor.new) }
    ensures shorter { TakesSome result (left cursor.old) (left cursor.new) }
{
    let comma = cursor.mark(b',')?;
    let setting = setting(cursor, allowed, seen)?;
    Ok((comma, setting))
}

/// The settings behind the first in brackets, each with the comma before it.
fn more_settings<'a>(
    alloc: Global,
    cursor: &mut Cursor<'_, 'a>,
    allowed: Allowed<'_, '_>,
    first: Setting<'a>,
) -> Result<Vec<(Span, Setting<'a>)>, ReadError>
    requires { allowed_of allowed (setting_of first) ≡ true }
    ensures found { IfOk result (λ x. left cursor.old ≡ list_then (next_then 44 setting_then) (map (next_of setting_of) x.items) (left cursor.new)) }
    ensures fits { IfOk result (λ x. all_fit (allowed_of allowed.entry) (setting_of first.entry ∷ map (λ y. y.1) (map (next_of setting_of) x.items)) ≡ true) }
    ensures only { (xs : List (Span × tree.Setting)) (rest : List tokens.Token) →
        all_fit (allowed_of allowed.entry) (setting_of first.entry ∷ map (λ y. y.1) xs) ≡ true → sees_mark 44 rest ≡ false →
        left cursor.old ≡ list_then (next_then 44 setting_then) xs rest →
        Reaches (λ x. map (next_of setting_of) x.items) xs rest result (left cursor.new) }
    ensures shorter { TakesAny result (left cursor.old) (left cursor.new) }
{
    let mut more = Vec::new(alloc);
    // Those before the last: it takes no memory where there is one setting only.
    let mut seen = Vec::new(alloc);
    let mut last = first;
    'each: while cursor.sees(b',') {
        add(&mut seen, last)?;
        let next = next_setting(cursor, allowed, seen.as_slice())?;
        last = next.1;
        add(&mut more, next)?;
    }
    more.shrink_to_fit();
    Ok(more)
}

/// One or more settings, each allowed, and no name set twice.
#[tactic(auto, using(crate::proofs::Bracketed::first_is_allowed, crate::proofs::Bracketed::first_may_stand))]
fn some_settings<'a>(
    alloc: Global,
    cursor: &mut Cursor<'_, 'a>,
    allowed: Allowed<'_, '_>,
) -> Result<Separated<Setting<'a>>, ReadError>
    ensures found { IfOk result (λ s. left cursor.old ≡ separated_then 44 setting_then (separated_of setting_of s) (left cursor.new)) }
    ensures fits { IfOk result (λ s. all_fit (allowed_of allowed.entry) (all_of (separated_of setting_of s)) ≡ true) }
    ensures only { (s : tree.Separated tree.Setting) (rest : List tokens.Token) → all_fit (allowed_of allowed.entry) (all_of s) ≡ true →
        sees_mark 44 rest ≡ false → left cursor.old ≡ separated_then 44 setting_then s rest →
        Reaches (separated_of setting_of) s rest result (left cursor.new) }
    ensures shorter { TakesSome result (left cursor.old) (left cursor.new) }
{
    let first = setting(cursor, allowed, &[])?;
    let more = more_settings(alloc, cursor, allowed, first)?;
    Ok(Separated { first, more })
}

/// The value in a box.
fn boxed<T: Drop>(alloc: Global, value: T) -> Result<Box<T>, ReadError>
    ensures ok { IfOk result (λ b. b.value ≡ value) }
    ensures err { IfErr result (λ e. FailsNot e) }
{
    match Box::new(alloc, value) {
        Ok(made) => Ok(made),
        Err(_) => Err(ReadError::NoMemory),
    }
}

/// The same in brackets.
fn bracketed<'a>(
    alloc: Global,
    cursor: &mut Cursor<'_, 'a>,
    allowed: Allowed<'_, '_>,
) -> Result<Settings<'a>, ReadError>
    ensures found { IfOk result (λ s. left cursor.old ≡ some_settings_then (some_settings_of s) (left cursor.new)) }
    ensures fits { IfOk result (λ s. all_fit (allowed_of allowed.entry) (all_of (some_settings_of s).settings) ≡ true) }
    ensures only { (s : tree.Settings) (rest : List tokens.Token) → all_fit (allowed_of allowed.entry) (all_of s.settings) ≡ true →
        left cursor.old ≡ some_settings_then s rest → Reaches some_settings_of s rest result (left cursor.new) }
    ensures shorter { TakesSome result (left cursor.old) (left cursor.new) }
{
    let open = cursor.mark(b'[')?;
    let settings = some_settings(alloc, cursor, allowed)?;
    let close = match cursor.mark(b']') {
        Ok(close) => close,
        Err(error) => {
            drop(settings);
            return Err(error);
        }
    };
    Ok(Settings {
        open,
        settings: boxed(alloc, settings)?,
        close,
    })
}

/// Settings in brackets, if a bracket is next.
pub fn settings<'a>(
    alloc: Global,
    cursor: &mut Cursor<'_, 'a>,
    allowed: Allowed<'_, '_>,
) -> Result<Option<Settings<'a>>, ReadError>
    ensures found { IfOk result (λ s. left cursor.old ≡ settings_then (option_map some_settings_of s) (left cursor.new)) }
    ensures fits { IfOk result (λ s. all_fit (allowed_of allowed.entry) (list_of (option_map some_settings_of s)) ≡ true) }
    ensures only { (s : Option tree.Settings) (rest : List tokens.Token) → all_fit (allowed_of allowed.entry) (list_of s) ≡ true →
        sees_mark 91 rest ≡ false → left cursor.old ≡ settings_then s rest → Reaches (option_map some_settings_of) s rest result (left cursor.new) }
    ensures shorter { TakesAny result (left cursor.old) (left cursor.new) }
{
    if cursor.sees(b'[') {
        Ok(Some(bracketed(alloc, cursor, allowed)?))
    } else {
        Ok(None)
    }
}

/// An option statement that may stand behind those that were seen, or else what could stand there.
pub fn statement<'a>(
    cursor: &mut Cursor<'_, 'a>,
    expected: Expected,
    place: OptionPlace,
    seen: &[Setting<'_>],
) -> Result<Statement<'a>, ReadError>
    ensures found { IfOk result (λ s. left cursor.old ≡ statement_then (statement_of s) (left cursor.new)) }
    ensures fits { IfOk result (λ s. may_follow (option_fits place) (map setting_of seen.now) (statement_of s).setting ≡ true) }
    ensures only { (s : tree.Statement) (rest : List tokens.Token) → may_follow (option_fits place) (map setting_of seen.now) s.setting ≡ true →
        left cursor.old ≡ statement_then s rest → Reaches statement_of s rest result (left cursor.new) }
    ensures shorter { TakesSome result (left cursor.old) (left cursor.new) }
{
    let keyword = cursor.keyword("option", expected)?;
    let setting = setting(cursor, Allowed::Option(place), seen)?;
    let end = cursor.mark(b';')?;
    Ok(Statement {
        keyword,
        setting,
        end,
    })
}
