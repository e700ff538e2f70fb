ghost use Rattle.std.specs.Prelude.{◌≡◌, ◌⊎◌, Some, None, map as map_list, true, IfOk, IfErr};
ghost use Rattle.serde_json.specs.View.{view, members_view};
ghost use Rattle.pbx_content.specs.Content.{message, many as many_of, keyed, vals_of, pairs_of, get, fields};
ghost use Rattle.pbx_content.specs.Encoding.{type_of};
ghost use Rattle.pbx_content.specs.Shape.{declared_of};
ghost use Rattle.pbx_content.specs.Sound.{IsSound};
ghost use Rattle.pbx_content_codec.specs.View.{val_of, content_of, pair_of};
ghost use Rattle.pbx_json_meaning.specs.Forms.{is_object_type, kind_at as kind_at_of};
ghost use Rattle.pbx_wkt_types.specs.Shapes.{form_of as form_of_type};
ghost use Rattle.pbx_wkt_types.specs.declared.form.Form.TheVariants as forms;
ghost use Rattle.pbx_json_meaning.specs.Asked.{one};
ghost use Rattle.pbx_json_meaning.specs.Faults.{SomeWith};
ghost use Rattle.pbx_json_meaning.specs.Canonical.{writing, tells, canonical};
ghost use Rattle.pbx_json_meaning.specs.WriteFaults.{WriteFault};
ghost use Rattle.pbx_json_meaning.specs.declared.kind.JsonKind.TheVariants as fault;
ghost use Rattle.pbx_json_writing.specs.Indexes.{AreIndexes};
ghost use Rattle.pbx_json_writing.specs.Kinds.{told_value, is_passed_form as is_passed_form_of};
ghost use Rattle.pbx_json_writing.specs.Lines.{field_members};
ghost use Rattle.pbx_json_writing.specs.Refusals.{Refused};

use crate::any::{payload_of, with_payload};
use crate::{
    Indexes, Refusal, add_item, add_member, field_numbered, is_passed_form, keeps_no_float,
    key_of_field, key_text, message_type, number_of_value, own_tree, scalar_tree, with_defaults,
};
use pbx_content::{Kind, Schema};
use pbx_content_codec::{Contents, Held, Pair};
use pbx_json_meaning::{JsonError, JsonKind, SerializeOptions};
use pbx_json_schema::{is_object_form, kind_at, type_url};
use pbx_wire::List;
use pbx_wkt_types::Form;
use serde_json::{Map, Value};
use std::alloc::Global;

/// How many messages, lists and maps may stand inside one another: room for 1,024 levels of messages in lists or maps.
const DEEPEST: u32 = 2049;

/// A value as one of a kind, where the stack holds `room` levels.
#[cycle(write)]
fn held_tree(
    held: &Held,
    alloc: Global,
    schema: &Schema,
    options: &SerializeOptions,
    indexes: &mut Indexes,
    kind: Kind,
    room: u32,
) -> Result<Value, Refusal>
    requires { AreIndexes schema.now indexes.old }
    ensures written { IfOk result (λ tree. tells schema.now (writing schema.now options.now) (val_of held.now) (one kind) ≡ Some (view tree)) }
    ensures refused { IfErr result (Refused schema.now (writing schema.now options.now) (val_of held.now) kind) }
    ensures known { AreIndexes schema.now indexes.new }
{
    match held {
        Held::Message(contents) => message_tree(
            contents, alloc, schema, options, indexes, kind, room,
        ),
        Held::Many(many) => array_tree(many, alloc, schema, options, indexes, kind, room),
        Held::Pairs(pairs) => entries_tree(pairs, alloc, schema, options, indexes, kind, room),
        _ => scalar_tree(held, alloc, schema, options, indexes, kind),
    }
}

/// The elements of a list.
#[cycle(write)]
fn array_tree(
    many: &List<Held>,
    alloc: Global,
    schema: &Schema,
    options: &SerializeOptions,
    indexes: &mut Indexes,
    kind: Kind,
    room: u32,
) -> Result<Value, Refusal>
    requires { AreIndexes schema.now indexes.old }
    ensures written { IfOk result (λ tree. tells schema.now (writing schema.now options.now) (many_of (vals_of (map_list val_of many.now))) (one kind)
        ≡ Some (view tree)) }
    ensures refused { IfErr result (Refused schema.now (writing schema.now options.now) (many_of (vals_of (map_list val_of many.now))) kind) }
    ensures known { AreIndexes schema.now indexes.new }
{
    if room == 0 {
        return Err(Refusal::Memory);
    }
    let mut items = Vec::new(alloc);
    for held in many.as_slice() {
        let written = held_tree(held, alloc, schema, options, indexes, kind, room - 1);
        if let Err(refusal) = add_item(written, &mut items) {
            return Err(refusal);
        }
    }
    Ok(Value::Array(items))
}

/// The entries of a map.
#[cycle(write)]
fn entries_tree(
    pairs: &List<Pair>,
    alloc: Global,
    schema: &Schema,
    options: &SerializeOptions,
    indexes: &mut Indexes,
    kind: Kind,
    room: u32,
) -> Result<Value, Refusal>
    requires { AreIndexes schema.now indexes.old }
    ensures written { IfOk result (λ tree. tells schema.now (writing schema.now options.now) (keyed (pairs_of (map_list pair_of pairs.now))) (one kind)
        ≡ Some (view tree)) }
    ensures refused { IfErr result (Refused schema.now (writing schema.now options.now) (keyed (pairs_of (map_list pair_of pairs.now))) kind) }
    ensures known { AreIndexes schema.now indexes.new }
{
    if room == 0 {
        return Err(Refusal::Memory);
    }
    let mut map = Map::new(alloc);
    for pair in pairs.as_slice() {
        let Ok(key) = key_text(alloc, &pair.key) else {
            return Err(Refusal::Memory);
        };
        let written = held_tree(&pair.held, alloc, schema, options, indexes, kind, room - 1);
        if let Err(refusal) = add_member(alloc, key.as_str(), written, &mut map) {
            return Err(refusal);
        }
    }
    Ok(Value::Object(map))
}

/// The fields of a message that have a value.
#[cycle(write)]
fn field_map(
    contents: &Contents,
    alloc: Global,
    schema: &Schema,
    options: &SerializeOptions,
    indexes: &mut Indexes,
    kind: Kind,
    room: u32,
) -> Result<Map<String, Value>, Refusal>
    requires plain { is_object_type schema.now (type_of kind) ≡ true }
    requires known { AreIndexes schema.now indexes.old }
    ensures written { IfOk result (λ map. field_members schema.now (writing schema.now options.now) (declared_of schema.now (type_of kind))
        (content_of contents.now)
        ≡ Some (members_view map.entries)) }
    ensures refused { IfErr result (Refused schema.now (writing schema.now options.now) (message (content_of contents.now)) kind) }
    ensures known { AreIndexes schema.now indexes.new }
{
    let type_at = message_type(kind);
    let mut map = Map::new(alloc);
    for field in contents.fields.as_slice() {
        let Some(found) = field_numbered(schema, type_at, field.0) else {
            return Err(Refusal::here(alloc, JsonKind::WrongKind));
        };
        let written = held_tree(&field.1, alloc, schema, options, indexes, found.kind, room);
        if let Err(refusal) = add_member(alloc, key_of_field(options, found), written, &mut map) {
            return Err(refusal);
        }
    }
    Ok(map)
}

/// The value of the field of a number, or another tree where it has none.
#[cycle(write)]
fn field_tree(
    contents: &Contents,
    alloc: Global,
    schema: &Schema,
    options: &SerializeOptions,
    indexes: &mut Indexes,
    kind: Kind,
    number: u32,
    otherwise: Value,
    room: u32,
) -> Result<Value, Refusal>
    requires { AreIndexes schema.now indexes.old }
    ensures written { IfOk result (λ tree. told_value schema.now (writing schema.now options.now) (kind_at_of schema.now (type_of kind) number)
        (Some (view otherwise))
        (get number (fields (content_of contents.now))) ≡ Some (view tree)) }
    ensures refused { IfErr result (λ refusal. SomeWith (get number (fields (content_of contents.now)))
        (λ held. Refused schema.now (writing schema.now options.now) held (kind_at_of schema.now (type_of kind) number) refusal)) }
    ensures known { AreIndexes schema.now indexes.new }
{
    match contents.get(number) {
        Some(held) => {
            drop(otherwise);
            let held_kind = kind_at(schema, message_type(kind), number);
            held_tree(held, alloc, schema, options, indexes, held_kind, room)
        }
        None => Ok(otherwise),
    }
}

/// A message of `google.protobuf.Any`: the URL of a type, and a payload of that type.
#[cycle(write)]
fn any_tree(
    contents: &Contents,
    alloc: Global,
    schema: &Schema,
    options: &SerializeOptions,
    indexes: &mut Indexes,
    kind: Kind,
    room: u32,
) -> Result<Value, Refusal>
    requires form { form_of_type schema.now (type_of kind) ≡ forms.Any }
    requires known { AreIndexes schema.now indexes.old }
    ensures written { IfOk result (λ tree. tells schema.now (writing schema.now options.now) (message (content_of contents.now)) (one kind)
        ≡ Some (view tree)) }
    ensures refused { IfErr result (Refused schema.now (writing schema.now options.now) (message (content_of contents.now)) kind) }
    ensures known { AreIndexes schema.now indexes.new }
{
    let payload = match payload_of(contents, alloc, schema, indexes, kind) {
        Ok(payload) => payload,
        Err(refusal) => return Err(refusal),
    };
    let written = message_tree(
        &payload.contents,
        alloc,
        schema,
        options,
        indexes,
        Kind::Message(payload.type_at),
        room,
    );
    with_payload(alloc, schema, type_url(contents), payload.type_at, written)
}

/// A message of a type that is told by the value of a field, or by its payload.
#[cycle(write)]
fn passed_tree(
    contents: &Contents,
    alloc: Global,
    schema: &Schema,
    options: &SerializeOptions,
    indexes: &mut Indexes,
    kind: Kind,
    form: Form,
    room: u32,
) -> Result<Value, Refusal>
    requires form { form ≡ form_of_type schema.now (type_of kind) }
    requires passed { is_passed_form_of form ≡ true }
    requires known { AreIndexes schema.now indexes.old }
    ensures written { IfOk result (λ tree. tells schema.now (writing schema.now options.now) (message (content_of contents.now)) (one kind)
        ≡ Some (view tree)) }
    ensures refused { IfErr result (Refused schema.now (writing schema.now options.now) (message (content_of contents.now)) kind) }
    ensures known { AreIndexes schema.now indexes.new }
{
    match form {
        Form::Struct => {
            let empty = Value::Object(Map::new(alloc));
            field_tree(
                contents, alloc, schema, options, indexes, kind, 1, empty, room,
            )
        }
        Form::ListValue => {
            let empty = Value::Array(Vec::new(alloc));
            field_tree(
                contents, alloc, schema, options, indexes, kind, 1, empty, room,
            )
        }
        Form::Any => any_tree(contents, alloc, schema, options, indexes, kind, room),
        _ => match number_of_value(contents, alloc, schema, kind) {
            Ok(1) => Ok(Value::Null),
            Ok(number) => field_tree(
                contents,
                alloc,
                schema,
                options,
                indexes,
                kind,
                number,
                Value::Null,
                room,
            ),
            Err(refusal) => Err(refusal),
        },
    }
}

/// A message as one of a kind.
#[cycle(write)]
fn message_tree(
    contents: &Contents,
    alloc: Global,
    schema: &Schema,
    options: &SerializeOptions,
    indexes: &mut Indexes,
    kind: Kind,
    room: u32,
) -> Result<Value, Refusal>
    requires { AreIndexes schema.now indexes.old }
    ensures written { IfOk result (λ tree. tells schema.now (writing schema.now options.now) (message (content_of contents.now)) (one kind)
        ≡ Some (view tree)) }
    ensures refused { IfErr result (Refused schema.now (writing schema.now options.now) (message (content_of contents.now)) kind) }
    ensures known { AreIndexes schema.now indexes.new }
{
    if room == 0 {
        return Err(Refusal::Memory);
    }
    let Ok(form) = indexes.form(schema, message_type(kind)) else {
        return Err(Refusal::Memory);
    };
    if is_passed_form(form) {
        return passed_tree(
            contents,
            alloc,
            schema,
            options,
            indexes,
            kind,
            form,
            room - 1,
        );
    }
    if !is_object_form(form) {
        return own_tree(contents, alloc, schema, options, indexes, kind, form);
    }
    if let Err(refusal) = keeps_no_float(alloc, schema, options, kind, contents) {
        return Err(refusal);
    }
    match field_map(contents, alloc, schema, options, indexes, kind, room - 1) {
        Ok(map) => with_defaults(alloc, schema, options, kind, contents, map),
        Err(refusal) => Err(refusal),
    }
}

/// The canonical tree of a content as a message of the type at a place of the schema.
///
/// A content that no message of the type may have can lack a tree with no rule broken; the error then has some kind and
/// place. The stack is memory too: where messages, lists and maps stand inside one another more than 2,049 deep, as they
/// do not where messages nest at most 1,024 levels, that is `NoMemory`. The payload of an `Any` stands inside it.
pub fn write_content(
    alloc: Global,
    schema: &Schema,
    place: usize,
    content: &Contents,
    options: &SerializeOptions,
) -> Result<Value, JsonError>
    ensures written { IfOk result (λ tree. canonical schema.now place (content_of content.now) options.now ≡ Some (view tree)) }
    ensures refused { IfErr result (λ e. (e.kind ≡ fault.NoMemory) ⊎ (canonical schema.now place (content_of content.now) options.now ≡ None)) }
    ensures fault { IsSound schema.now place (content_of content.now)
        → IfErr result (λ e. (e.kind ≡ fault.NoMemory) ⊎ WriteFault schema.now place (content_of content.now) options.now e.place e.kind) }
{
    write_content_by(
        &mut Indexes::new(alloc, schema),
        alloc,
        schema,
        place,
        content,
        options,
    )
}

/// `write_content` by what was looked up of the schema before, for callers that write many messages. What a content asks for is kept
/// for the next one.
pub fn write_content_by(
    indexes: &mut Indexes,
    alloc: Global,
    schema: &Schema,
    place: usize,
    content: &Contents,
    options: &SerializeOptions,
) -> Result<Value, JsonError>
    requires { AreIndexes schema.now indexes.old }
    ensures written { IfOk result (λ tree. canonical schema.now place (content_of content.now) options.now ≡ Some (view tree)) }
    ensures refused { IfErr result (λ e. (e.kind ≡ fault.NoMemory) ⊎ (canonical schema.now place (content_of content.now) options.now ≡ None)) }
    ensures fault { IsSound schema.now place (content_of content.now)
        → IfErr result (λ e. (e.kind ≡ fault.NoMemory) ⊎ WriteFault schema.now place (content_of content.now) options.now e.place e.kind) }
    ensures known { AreIndexes schema.now indexes.new }
{
    match message_tree(
        content,
        alloc,
        schema,
        options,
        indexes,
        Kind::Message(place),
        DEEPEST,
    ) {
        Ok(tree) => Ok(tree),
        Err(refusal) => Err(refusal.told(alloc)),
    }
}
