// The types of values by their names in the public files.
#![tactic(auto, unfolding(pbx_desc_shapes::specs::TypesShape::types_shape, pbx_desc_shapes::specs::DescriptorShape::descriptor_shape))]

ghost use Rattle.std.specs.Prelude.{codes};
ghost use Rattle.pbx_message.specs.Reflect.{HasTypeName, HaveOwnType};

use crate::reflect::ReflectMessage;
use bytes::Bytes;
use pbx_desc_encoding::{
    DescriptorProto, EnumDescriptorProto, EnumReservedRange, EnumValueDescriptorProto,
    ExtensionRange, FieldDescriptorProto, FileDescriptorProto, FileDescriptorSet, Location,
    Message, MethodDescriptorProto, OneofDescriptorProto, ReservedRange, ServiceDescriptorProto,
    SourceCodeInfo,
};
use pbx_message_dynamic::DynamicMessage;
use pbx_types::{Any, Duration, Empty, FieldMask, ListValue, Struct, Timestamp, Value};

/// A record of a well-known type is a message of the type of its name.
pub fn well_known_records_have_names()
    ensures any { HasTypeName ⟦<Any as ReflectMessage>⟧.own ⟦<Any as Message>⟧.shape ⟦<Any as Message>⟧.type_at (codes "google.protobuf.Any") }
    ensures duration { HasTypeName ⟦<Duration as ReflectMessage>⟧.own ⟦<Duration as Message>⟧.shape ⟦<Duration as Message>⟧.type_at (codes "google.protobuf.Duration") }
    ensures empty { HasTypeName ⟦<Empty as ReflectMessage>⟧.own ⟦<Empty as Message>⟧.shape ⟦<Empty as Message>⟧.type_at (codes "google.protobuf.Empty") }
    ensures field_mask { HasTypeName ⟦<FieldMask as ReflectMessage>⟧.own ⟦<FieldMask as Message>⟧.shape ⟦<FieldMask as Message>⟧.type_at (codes "google.protobuf.FieldMask") }
    ensures list_value { HasTypeName ⟦<ListValue as ReflectMessage>⟧.own ⟦<ListValue as Message>⟧.shape ⟦<ListValue as Message>⟧.type_at (codes "google.protobuf.ListValue") }
    ensures struct_value { HasTypeName ⟦<Struct as ReflectMessage>⟧.own ⟦<Struct as Message>⟧.shape ⟦<Struct as Message>⟧.type_at (codes "google.protobuf.Struct") }
    ensures timestamp { HasTypeName ⟦<Timestamp as ReflectMessage>⟧.own ⟦<Timestamp as Message>⟧.shape ⟦<Timestamp as Message>⟧.type_at (codes "google.protobuf.Timestamp") }
    ensures value { HasTypeName ⟦<Value as ReflectMessage>⟧.own ⟦<Value as Message>⟧.shape ⟦<Value as Message>⟧.type_at (codes "google.protobuf.Value") }
{}

/// A single value is a message of the wrapper of its type, and `()` one of `Empty`.
pub fn scalars_have_names()
    ensures unit { HasTypeName ⟦<() as ReflectMessage>⟧.own ⟦<() as Message>⟧.shape ⟦<() as Message>⟧.type_at (codes "google.protobuf.Empty") }
    ensures truth { HasTypeName ⟦<bool as ReflectMessage>⟧.own ⟦<bool as Message>⟧.shape ⟦<bool as Message>⟧.type_at (codes "google.protobuf.BoolValue") }
    ensures int32 { HasTypeName ⟦<i32 as ReflectMessage>⟧.own ⟦<i32 as Message>⟧.shape ⟦<i32 as Message>⟧.type_at (codes "google.protobuf.Int32Value") }
    ensures int64 { HasTypeName ⟦<i64 as ReflectMessage>⟧.own ⟦<i64 as Message>⟧.shape ⟦<i64 as Message>⟧.type_at (codes "google.protobuf.Int64Value") }
    ensures uint32 { HasTypeName ⟦<u32 as ReflectMessage>⟧.own ⟦<u32 as Message>⟧.shape ⟦<u32 as Message>⟧.type_at (codes "google.protobuf.UInt32Value") }
    ensures uint64 { HasTypeName ⟦<u64 as ReflectMessage>⟧.own ⟦<u64 as Message>⟧.shape ⟦<u64 as Message>⟧.type_at (codes "google.protobuf.UInt64Value") }
    ensures string { HasTypeName ⟦<String as ReflectMessage>⟧.own ⟦<String as Message>⟧.shape ⟦<String as Message>⟧.type_at (codes "google.protobuf.StringValue") }
    ensures vector { HasTypeName ⟦<Vec<u8> as ReflectMessage>⟧.own ⟦<Vec<u8> as Message>⟧.shape ⟦<Vec<u8> as Message>⟧.type_at (codes "google.protobuf.BytesValue") }
    ensures bytes { HasTypeName ⟦<Bytes as ReflectMessage>⟧.own ⟦<Bytes as Message>⟧.shape ⟦<Bytes as Message>⟧.type_at (codes "google.protobuf.BytesValue") }
{}

/// A record of a file, a message or a field is a message of the type of its name.
pub fn file_records_have_names()
    ensures set { HasTypeName ⟦<FileDescriptorSet as ReflectMessage>⟧.own ⟦<FileDescriptorSet as Message>⟧.shape ⟦<FileDescriptorSet as Message>⟧.type_at (codes "google.protobuf.FileDescriptorSet") }
    ensures file { HasTypeName ⟦<FileDescriptorProto as ReflectMessage>⟧.own ⟦<FileDescriptorProto as Message>⟧.shape ⟦<FileDescriptorProto as Message>⟧.type_at (codes "google.protobuf.FileDescriptorProto") }
    ensures message { HasTypeName ⟦<DescriptorProto as ReflectMessage>⟧.own ⟦<DescriptorProto as Message>⟧.shape ⟦<DescriptorProto as Message>⟧.type_at (codes "google.protobuf.DescriptorProto") }
    ensures extension_range { HasTypeName ⟦<ExtensionRange as ReflectMessage>⟧.own ⟦<ExtensionRange as Message>⟧.shape ⟦<ExtensionRange as Message>⟧.type_at (codes "google.protobuf.DescriptorProto.ExtensionRange") }
    ensures reserved_range { HasTypeName ⟦<ReservedRange as ReflectMessage>⟧.own ⟦<ReservedRange as Message>⟧.shape ⟦<ReservedRange as Message>⟧.type_at (codes "google.protobuf.DescriptorProto.ReservedRange") }
    ensures field { HasTypeName ⟦<FieldDescriptorProto as ReflectMessage>⟧.own ⟦<FieldDescriptorProto as Message>⟧.shape ⟦<FieldDescriptorProto as Message>⟧.type_at (codes "google.protobuf.FieldDescriptorProto") }
    ensures oneof { HasTypeName ⟦<OneofDescriptorProto as ReflectMessage>⟧.own ⟦<OneofDescriptorProto as Message>⟧.shape ⟦<OneofDescriptorProto as Message>⟧.type_at (codes "google.protobuf.OneofDescriptorProto") }
{}

/// A record of an enum, a service or of places is a message of the type of its name.
pub fn enum_records_have_names()
    ensures enumeration { HasTypeName ⟦<EnumDescriptorProto as ReflectMessage>⟧.own ⟦<EnumDescriptorProto as Message>⟧.shape ⟦<EnumDescriptorProto as Message>⟧.type_at (codes "google.protobuf.EnumDescriptorProto") }
    ensures enum_range { HasTypeName ⟦<EnumReservedRange as ReflectMessage>⟧.own ⟦<EnumReservedRange as Message>⟧.shape ⟦<EnumReservedRange as Message>⟧.type_at (codes "google.protobuf.EnumDescriptorProto.EnumReservedRange") }
    ensures enum_value { HasTypeName ⟦<EnumValueDescriptorProto as ReflectMessage>⟧.own ⟦<EnumValueDescriptorProto as Message>⟧.shape ⟦<EnumValueDescriptorProto as Message>⟧.type_at (codes "google.protobuf.EnumValueDescriptorProto") }
    ensures service { HasTypeName ⟦<ServiceDescriptorProto as ReflectMessage>⟧.own ⟦<ServiceDescriptorProto as Message>⟧.shape ⟦<ServiceDescriptorProto as Message>⟧.type_at (codes "google.protobuf.ServiceDescriptorProto") }
    ensures method { HasTypeName ⟦<MethodDescriptorProto as ReflectMessage>⟧.own ⟦<MethodDescriptorProto as Message>⟧.shape ⟦<MethodDescriptorProto as Message>⟧.type_at (codes "google.protobuf.MethodDescriptorProto") }
    ensures source_info { HasTypeName ⟦<SourceCodeInfo as ReflectMessage>⟧.own ⟦<SourceCodeInfo as Message>⟧.shape ⟦<SourceCodeInfo as Message>⟧.type_at (codes "google.protobuf.SourceCodeInfo") }
    ensures location { HasTypeName ⟦<Location as ReflectMessage>⟧.own ⟦<Location as Message>⟧.shape ⟦<Location as Message>⟧.type_at (codes "google.protobuf.SourceCodeInfo.Location") }
{}

/// A dynamic message is one of its own type, whatever the pool.
pub fn dynamic_messages_have_own_type()
    ensures { HaveOwnType ⟦<DynamicMessage as ReflectMessage>⟧.own }
{}
