//! Readers of services.

ghost use Rattle.std.specs.Prelude.{◌≡◌, ◌<◌, List, length, true, false, OnOk, IfOk};
ghost use Rattle.pbx_parse_token.specs.Tokens as tokens;
ghost use Rattle.pbx_parse_tree.specs.Tree as tree;
ghost use Rattle.pbx_parse_tree.specs.Grammar.{method_type_then, method_item_then, method_end_then, method_then, service_item_then, service_then};
ghost use Rattle.pbx_parse_tree.specs.Conditions.{method_type_fits, method_end_fits, method_fits, service_fits};
ghost use Rattle.pbx_parse_tree.specs.View.{method_type_of, method_item_of, method_end_of, method_of, service_item_of, service_of};
ghost use Rattle.pbx_parse_reader.specs.Blocks.{method_behind, method_after, service_behind, service_after};
ghost use Rattle.pbx_parse_reader.specs.View.{left, sees_mark, ends_block, Reaches, TakesSome};

use crate::blocks::{BlockItem, Seen, add, closed_block};
use crate::cursor::Cursor;
use crate::error::ReadError;
use crate::parts::{block_head, named_type, statement};
use pbx_parse_tree::{
    Expected, Method, MethodEnd, MethodItem, MethodType, OptionPlace, Service, ServiceItem, Version,
};
use std::alloc::Global;

/// The type that a method takes or gives. `stream` is the keyword, where it is next.
#[tactic(auto, using(crate::proofs::Begin::stream_begins))]
fn method_type<'a>(alloc: Global, cursor: &mut Cursor<'_, 'a>) -> Result<MethodType<'a>, ReadError>
    ensures found { IfOk result (λ t. left cursor.old ≡ method_type_then (method_type_of t) (left cursor.new)) }
    ensures fits { IfOk result (λ t. method_type_fits (method_type_of t) ≡ true) }
    ensures only { (t : tree.MethodType) (rest : List tokens.Token) → method_type_fits t ≡ true → left cursor.old ≡ method_type_then t rest →
        Reaches method_type_of t rest result (left cursor.new) }
    ensures shorter { TakesSome result (left cursor.old) (left cursor.new) }
{
    let open = cursor.mark(b'(')?;
    let stream = cursor.eat_word("stream");
    let name = named_type(alloc, cursor)?;
    let close = cursor.mark(b')')?;
    Ok(MethodType {
        open,
        stream,
        name,
        close,
    })
}

impl<'a> BlockItem<'a> for MethodItem<'a> {
    ghost Tree = { tree.MethodItem };

    ghost view = { method_item_of };

    ghost spelled = { method_item_then };

    ghost behind = { λ _ b i. method_behind b i };

    ghost after = { method_after };

    ghost stop = { ends_block };

    #[tactic(auto, using(crate::proofs::Begin::method_item_goes))]
    fn stops(cursor: &Cursor<'_, 'a>) -> bool {
        cursor.ends_block()
    }

    fn read_behind(
        _alloc: Global,
        cursor: &mut Cursor<'_, 'a>,
        _version: Version,
        seen: &Seen<'a>,
    ) -> Result<MethodItem<'a>, ReadError> {
        if cursor.sees(b';') {
            return match cursor.mark(b';') {
                Ok(part) => Ok(MethodItem::Empty(part)),
                Err(error) => Err(error),
            };
        }
        let set = seen.settings.as_slice();
        match statement(cursor, Expected::MethodItem, OptionPlace::Method, set) {
            Ok(part) => Ok(MethodItem::Option(part)),
            Err(error) => Err(error),
        }
    }

    fn note(&self, seen: &mut Seen<'a>) -> Result<(), ReadError> {
        match self {
            MethodItem::Option(statement) => add(&mut seen.settings, statement.setting),
            MethodItem::Empty(_) => Ok(()),
        }
    }
}

/// The block of a method, or else what could stand there.
#[tactic(auto, using(crate::proofs::Judged::method_judged))]
fn method_block<'a>(
    alloc: Global,
    cursor: &mut Cursor<'_, 'a>,
    version: Version,
) -> Result<MethodEnd<'a>, ReadError>
    ensures found { IfOk result (λ e. left cursor.old ≡ method_end_then (method_end_of e) (left cursor.new)) }
    ensures fits { IfOk result (λ e. method_end_fits (method_end_of e) ≡ true) }
    ensures only { (e : tree.MethodEnd) (rest : List tokens.Token) → sees_mark 59 (left cursor.old) ≡ false → method_end_fits e ≡ true →
        left cursor.old ≡ method_end_then e rest → Reaches method_end_of e rest result (left cursor.new) }
    ensures shorter { TakesSome result (left cursor.old) (left cursor.new) }
{
    let open = cursor.mark_or(b'{', Expected::MethodEnd)?;
    let (items, close) = closed_block(alloc, cursor, version)?;
    Ok(MethodEnd::Block(open, items, close))
}

fn method_end<'a>(
    alloc: Global,
    cursor: &mut Cursor<'_, 'a>,
    version: Version,
) -> Result<MethodEnd<'a>, ReadError>
    ensures found { IfOk result (λ e. left cursor.old ≡ method_end_then (method_end_of e) (left cursor.new)) }
    ensures fits { IfOk result (λ e. method_end_fits (method_end_of e) ≡ true) }
    ensures only { (e : tree.MethodEnd) (rest : List tokens.Token) → method_end_fits e ≡ true → left cursor.old ≡ method_end_then e rest →
        Reaches method_end_of e rest result (left cursor.new) }
    ensures shorter { TakesSome result (left cursor.old) (left cursor.new) }
{
    if cursor.sees(b';') {
        return Ok(MethodEnd::Semicolon(cursor.mark(b';')?));
    }
    method_block(alloc, cursor, version)
}

fn method<'a>(
    alloc: Global,
    cursor: &mut Cursor<'_, 'a>,
    version: Version,
) -> Result<Method<'a>, ReadError>
    ensures found { IfOk result (λ m. left cursor.old ≡ method_then (method_of m) (left cursor.new)) }
    ensures fits { IfOk result (λ m. method_fits (method_of m) ≡ true) }
    ensures only { (m : tree.Method) (rest : List tokens.Token) → method_fits m ≡ true → left cursor.old ≡ method_then m rest →
        Reaches method_of m rest result (left cursor.new) }
    ensures shorter { TakesSome result (left cursor.old) (left cursor.new) }
{
    let keyword = cursor.keyword("rpc", Expected::ServiceItem)?;
    let name = cursor.name()?;
    let input = method_type(alloc, cursor)?;
    let returns = cursor.keyword("returns", Expected::Returns)?;
    let output = method_type(alloc, cursor)?;
    let end = method_end(alloc, cursor, version)?;
    Ok(Method {
        keyword,
        name,
        input,
        returns,
        output,
        end,
    })
}

impl<'a> BlockItem<'a> for ServiceItem<'a> {
    ghost Tree = { tree.ServiceItem };

    ghost view = { service_item_of };

    ghost spelled = { service_item_then };

    ghost behind = { λ _ b i. service_behind b i };

    ghost after = { service_after };

    ghost stop = { ends_block };

    #[tactic(auto, using(crate::proofs::Begin::service_item_goes))]
    fn stops(cursor: &Cursor<'_, 'a>) -> bool {
        cursor.ends_block()
    }

    fn read_behind(
        alloc: Global,
        cursor: &mut Cursor<'_, 'a>,
        version: Version,
        seen: &Seen<'a>,
    ) -> Result<ServiceItem<'a>, ReadError> {
        if cursor.sees(b';') {
            return match cursor.mark(b';') {
                Ok(part) => Ok(ServiceItem::Empty(part)),
                Err(error) => Err(error),
            };
        }
        if cursor.sees_word("option") {
            let set = seen.settings.as_slice();
            return match statement(cursor, Expected::Keyword, OptionPlace::Service, set) {
                Ok(part) => Ok(ServiceItem::Option(part)),
                Err(error) => Err(error),
            };
        }
        match method(alloc, cursor, version) {
            Ok(part) => Ok(ServiceItem::Method(part)),
            Err(error) => Err(error),
        }
    }

    fn note(&self, seen: &mut Seen<'a>) -> Result<(), ReadError> {
        match self {
            ServiceItem::Option(statement) => add(&mut seen.settings, statement.setting),
            _ => Ok(()),
        }
    }
}

/// A service.
#[tactic(auto, using(crate::proofs::Judged::service_judged, crate::proofs::Judged::service_from))]
pub fn service<'a>(
    alloc: Global,
    cursor: &mut Cursor<'_, 'a>,
    version: Version,
) -> Result<Service<'a>, ReadError>
    ensures found { IfOk result (λ s. left cursor.old ≡ service_then (service_of s) (left cursor.new)) }
    ensures fits { IfOk result (λ s. service_fits (service_of s) ≡ true) }
    ensures only { (s : tree.Service) (rest : List tokens.Token) → service_fits s ≡ true → left cursor.old ≡ service_then s rest →
        Reaches service_of s rest result (left cursor.new) }
    ensures shorter { TakesSome result (left cursor.old) (left cursor.new) }
{
    let head = block_head(cursor, "service")?;
    let (items, close) = closed_block(alloc, cursor, version)?;
    Ok(Service {
        keyword: head.keyword,
        name: head.name,
        open: head.open,
        items,
        close,
    })
}
