ghost use Rattle.std.specs.Prelude.{◌≡◌, Option, Some, IfOk, IfErr};
ghost use Rattle.pbx_content.specs.Encoding.{encoded};
ghost use Rattle.pbx_desc_records.specs.declared.message.DescriptorProto.{DescriptorProto};
ghost use Rattle.pbx_link_meaning.specs.Descriptors.{Described};
ghost use Rattle.pbx_message.specs.Reflect.{reflected, IsOwn, IsReflected, IsNotReflected};

use crate::error::ReflectError;
use pbx_desc_encoding::Message;
use pbx_link::{DescriptorPool, MessageDescriptor};
use pbx_message_dynamic::DynamicMessage;
use pbx_wire::DecodeError;
use std::alloc::Global;

/// A value that has a message type in a pool.
pub trait ReflectMessage: Message {
    /// A type of its own, which it has whatever the pool: dynamic messages have one.
    ghost own: { Self → Option (Described DescriptorProto) };

    /// The message type: its own, or else the pool's message of its type's full name, if the pool has it.
    fn descriptor(&self, pool: &DescriptorPool) -> Option<MessageDescriptor>
        ensures found { result ≡ reflected (own self.now) (Self.shape self.now) (Self.type_at self.now) pool.now }

        // A type of its own is that as which it is written.
        ensures own { IsOwn (own self.now) (Self.shape self.now) (Self.type_at self.now) };

    /// The dynamic message that the value's bytes mean as one of that type. `NotFound` comes exactly where there is no such
    /// type, and `Decode` where the bytes mean nothing as one of it.
    fn transcode_to_dynamic(
        &self,
        alloc: Global,
        pool: &DescriptorPool,
    ) -> Result<DynamicMessage, ReflectError>
        ensures ok { IfOk result (IsReflected (reflected (own self.now) (Self.shape self.now) (Self.type_at self.now) pool.now)
            (encoded (Self.shape self.now) (Self.type_at self.now) (Self.content self.now))) }
        ensures err { IfErr result (IsNotReflected (reflected (own self.now) (Self.shape self.now) (Self.type_at self.now) pool.now)
            (encoded (Self.shape self.now) (Self.type_at self.now) (Self.content self.now))) }
    {
        let Some(desc) = self.descriptor(pool) else {
            return Err(ReflectError::NotFound);
        };
        match self.encode_to_vec(alloc) {
            Ok(bytes) => reflect_bytes(alloc, desc, bytes.as_slice()),
            Err(_refused) => Err(ReflectError::NoMemory),
        }
    }
}

/// The message of the type that the bytes mean.
fn reflect_bytes(
    alloc: Global,
    desc: MessageDescriptor,
    bytes: &[u8],
) -> Result<DynamicMessage, ReflectError>
    ensures ok { IfOk result (IsReflected (Some desc) bytes.now) }
    ensures err { IfErr result (IsNotReflected (Some desc) bytes.now) }
{
    match DynamicMessage::decode(alloc, desc, bytes) {
        Ok(message) => Ok(message),
        Err(DecodeError::NoMemory) => Err(ReflectError::NoMemory),
        Err(fault) => Err(ReflectError::Decode(fault)),
    }
}
