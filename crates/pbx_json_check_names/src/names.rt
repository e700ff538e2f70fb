ghost use Rattle.std.specs.Prelude.{◌≡◌, ◌⊎◌, Some, None, IfErr, OnOk};
ghost use Rattle.pbx_json_meaning.specs.Clash.{ByAnyName, name_fault, first_misshapen as first_misshapen_of};
ghost use Rattle.pbx_json_meaning.specs.declared.names_fault.NameFault.TheVariants as fault;

use crate::clash::first_clash;
use pbx_content::{MessageShape, Schema};
use pbx_json_meaning::NameFault;
use pbx_wire::NoMemory;
use pbx_wkt_types::type_has_shape;
use std::alloc::Global;

/// The fault of a message that has not the shape of its name, unless memory runs out.
fn shape_fault(alloc: Global, message: &MessageShape) -> NameFault
    ensures { (result ≡ fault.NoMemory) ⊎ (result ≡ fault.WellKnownShape message.now.full_name) }
{
    match message.full_name.copy(alloc) {
        Ok(message) => NameFault::WellKnownShape { message },
        Err(NoMemory) => NameFault::NoMemory,
    }
}

/// The first message of the schema that has a well-known name and not its shape.
fn first_misshapen(alloc: Global, schema: &Schema) -> Result<(), NameFault>
    ensures ok { OnOk result (first_misshapen_of schema.now 0 schema.now.messages ≡ None) }
    ensures err { IfErr result (λ e. (e ≡ fault.NoMemory) ⊎ (first_misshapen_of schema.now 0 schema.now.messages ≡ Some e)) }
{
    for (place, message) in schema.shape().messages.as_slice().iter().enumerate() {
        if !type_has_shape(schema, place) {
            return Err(shape_fault(alloc, message));
        }
    }
    Ok(())
}

/// Why the messages of the schema cannot all be carried to JSON and back: the first message with a key that has two
/// meanings, and its least such key; else the first message that has a well-known name and not its shape.
///
/// A key has two meanings where two fields of the message share it as their JSON name, where an extension of the message
/// has it, where it is `@type`, the key of an `Any`'s type, and where it is the name of another field.
pub fn first_fault(alloc: Global, schema: &Schema) -> Result<(), NameFault>
    ensures ok { OnOk result (name_fault ByAnyName schema.now ≡ None) }
    ensures err { IfErr result (λ e. (e ≡ fault.NoMemory) ⊎ (name_fault ByAnyName schema.now ≡ Some e)) }
{
    match first_clash(alloc, schema) {
        Ok(()) => first_misshapen(alloc, schema),
        Err(fault) => Err(fault),
    }
}
