// Services of a pool.
ghost use Rattle.std.specs.Prelude.{◌≡◌, ◌<◌, [], Some, length, Contains};
ghost use Rattle.std.specs.Iterator.{YieldsFirst, item_count};
ghost use Rattle.pbx_link_definitions.specs.Names.{text_or_empty as text_or_empty_of};
ghost use Rattle.pbx_link_definitions.specs.Definitions.{services, service_name, methods_in};
ghost use Rattle.pbx_link_rules.specs.Pool.{ArePooled};
ghost use Rattle.pbx_link_meaning.specs.Descriptors.{described, message_referred, methods_of_service, takes_stream, gives_stream};
ghost use Rattle.pbx_link.specs.Tables.{part_at, no_method};

use crate::message::MessageDescriptor;
use crate::pool::DescriptorPool;
use pbx_desc_records::{MethodDescriptorProto, ServiceDescriptorProto};
use pbx_link_definitions::{PartRef, text_or_empty};
use pbx_link_tables::FileTable;
use pbx_shared::Shared;
use std::marker::Model;

/// A service of a pool. Contracts see the pool, the file's record and the service with its place.
#[derive(Drop)]
pub struct ServiceDescriptor {
    pub(crate) pool: DescriptorPool,
    pub(crate) table: Shared<FileTable>,
    pub(crate) index: usize,
}

impl Model for ServiceDescriptor {
    ghost use Rattle.std.specs.Prelude.{◌<◌, length, Contains};
    ghost use Rattle.pbx_desc_records.specs.contracts.service.ServiceDescriptorProto as proto;
    ghost use Rattle.pbx_desc_records.specs.declared.service.ServiceDescriptorProto.{ServiceDescriptorProto};
    ghost use Rattle.pbx_link_definitions.specs.Definitions.{services};
    ghost use Rattle.pbx_link_meaning.specs.Descriptors.{Described, described, described_code};
    ghost use Rattle.pbx_link.specs.Tables.{part_at, no_service};

    ghost Value = { Described ServiceDescriptorProto };

    ghost coded = { described_code proto.the_row.coded };

    ghost view = { λ d. described d.pool d.table (part_at no_service (services d.table) d.index) };

    ghost invariant = { λ d. Contains d.pool d.table × (d.index < length (services d.table)) };
}

impl ServiceDescriptor {
    /// The same service. It takes no memory.
    pub fn copy(&self) -> ServiceDescriptor
        ensures { result ≡ self.now }
    {
        ServiceDescriptor {
            pool: self.pool.copy(),
            table: self.table.copy(),
            index: self.index,
        }
    }

    /// The service with its place.
    fn part(&self) -> PartRef<'_, ServiceDescriptorProto>
        ensures { result ≡ self.now.part }
    {
        self.table.as_ref().service(self.index).unwrap()
    }

    /// Its name with that of its package.
    pub fn full_name(&self) -> &str
        ensures { result.now ≡ service_name self.now.part }
    {
        self.table.as_ref().service_name(self.index).unwrap()
    }

    /// Its methods in declared order.
    pub fn methods(&self) -> ServiceMethods<'_>
        ensures { result ≡ methods_of_service self.now }
    {
        ServiceMethods {
            service: self,
            index: 0,
        }
    }

    /// The pool, lent. The service stands in it.
    fn pool(&self) -> &DescriptorPool
        ensures same { result.now ≡ self.now.pool }
        ensures file { Contains self.now.pool self.now.file }
        ensures service { Contains (services self.now.file) self.now.part }
        ensures pooled { ArePooled [] self.now.pool }
    {
        let _ = self.pool.tables();
        &self.pool
    }

    /// The records of its methods.
    fn own_methods(&self) -> &[MethodDescriptorProto]
        ensures { result.now ≡ self.now.part.item.method }
    {
        self.part().item().method.as_slice()
    }

    /// How many methods it has.
    #[tactic(auto, using(crate::proofs::Parts::length_parts))]
    fn method_count(&self) -> usize
        ensures { result ≡ length (methods_in self.now.part) }
    {
        self.own_methods().len()
    }

    /// The method of this index.
    fn method(&self, index: usize) -> MethodDescriptor
        requires { index < length (methods_in self.now.part) }
        ensures { result ≡ described self.now.pool self.now.file (part_at no_method (methods_in self.now.part) index) }
    {
        MethodDescriptor {
            service: self.copy(),
            index,
        }
    }

    /// The record of the method of this index.
    #[tactic(auto, using(crate::proofs::Parts::length_parts, crate::proofs::Parts::item_is))]
    fn method_record(&self, index: usize) -> &MethodDescriptorProto
        requires { index < length (methods_in self.now.part) }
        ensures { result.now ≡ (part_at no_method (methods_in self.now.part) index).item }
    {
        &self.own_methods()[index]
    }
}

/// A method of a service. Contracts see the pool, the file's record and the method with its place.
#[derive(Drop)]
pub struct MethodDescriptor {
    service: ServiceDescriptor,
    index: usize,
}

impl Model for MethodDescriptor {
    ghost use Rattle.std.specs.Prelude.{◌<◌, length};
    ghost use Rattle.pbx_desc_records.specs.contracts.service.MethodDescriptorProto as proto;
    ghost use Rattle.pbx_desc_records.specs.declared.service.MethodDescriptorProto.{MethodDescriptorProto};
    ghost use Rattle.pbx_link_definitions.specs.Definitions.{methods_in};
    ghost use Rattle.pbx_link_meaning.specs.Descriptors.{Described, described, described_code};
    ghost use Rattle.pbx_link.specs.Tables.{part_at, no_method};

    ghost Value = { Described MethodDescriptorProto };

    ghost coded = { described_code proto.the_row.coded };

    ghost view = { λ d. described d.service.pool d.service.file (part_at no_method (methods_in d.service.part) d.index) };

    ghost invariant = { λ d. d.index < length (methods_in d.service.part) };
}

impl MethodDescriptor {
    /// The same method. It takes no memory.
    pub fn copy(&self) -> MethodDescriptor
        ensures { result ≡ self.now }
    {
        MethodDescriptor {
            service: self.service.copy(),
            index: self.index,
        }
    }

    fn record(&self) -> &MethodDescriptorProto
        ensures { result.now ≡ self.now.part.item }
    {
        self.service.method_record(self.index)
    }

    /// Its own name.
    pub fn name(&self) -> &str
        ensures { result.now ≡ text_or_empty_of self.now.part.item.name }
    {
        text_or_empty(&self.record().name)
    }

    /// The message that it takes.
    pub fn input(&self) -> MessageDescriptor
        ensures { message_referred self.now.pool self.now.part.item.input_type ≡ Some result }
    {
        let pool = self.service.pool();
        pool.message_referred(&self.record().input_type).unwrap()
    }

    /// The message that it gives.
    pub fn output(&self) -> MessageDescriptor
        ensures { message_referred self.now.pool self.now.part.item.output_type ≡ Some result }
    {
        let pool = self.service.pool();
        pool.message_referred(&self.record().output_type).unwrap()
    }

    /// Whether a client sends a stream of messages; else it sends one.
    pub fn is_client_streaming(&self) -> bool
        ensures { result ≡ takes_stream self.now }
    {
        self.record().client_streaming.unwrap_or(false)
    }

    /// Whether the server answers with a stream of messages; else it answers with one.
    pub fn is_server_streaming(&self) -> bool
        ensures { result ≡ gives_stream self.now }
    {
        self.record().server_streaming.unwrap_or(false)
    }
}

/// The methods of a service. Contracts see the list of those that are left.
#[derive(Drop)]
pub struct ServiceMethods<'a> {
    service: &'a ServiceDescriptor,
    index: usize,
}

impl<'a> Model for ServiceMethods<'a> {
    ghost use Rattle.std.specs.Prelude.{List, drop};
    ghost use Rattle.std.specs.Coded.{coded_list};
    ghost use Rattle.pbx_desc_records.specs.contracts.service.MethodDescriptorProto as proto;
    ghost use Rattle.pbx_desc_records.specs.declared.service.MethodDescriptorProto.{MethodDescriptorProto};
    ghost use Rattle.pbx_link_meaning.specs.Descriptors.{Described, described_code, methods_of_service};

    ghost Value = { List (Described MethodDescriptorProto) };

    ghost coded = { coded_list (described_code proto.the_row.coded) };

    ghost view = { λ it. drop it.index (methods_of_service it.service.now) };
}

impl Iterator for ServiceMethods<'_> {
    type Item = MethodDescriptor;

    ghost next_gives = { YieldsFirst (λ it. it) };

    ghost remaining = { item_count (λ it. it) };

    #[tactic(auto, using(crate::proofs::Parts::next_part, crate::proofs::Parts::no_part))]
    fn next(&mut self) -> Option<MethodDescriptor> {
        let index = self.index;
        if index >= self.service.method_count() {
            return None;
        }
        self.index += 1;
        Some(self.service.method(index))
    }
}
