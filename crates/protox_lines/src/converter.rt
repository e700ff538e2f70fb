//! Streams of messages of one type, converted item by item.

ghost use Rattle.std.specs.Prelude.{◌≡◌, ◌⊎◌, ℕ, [], List as ListOf, IfOk, IfErr, OnOk, IsTrue};
ghost use Rattle.pbx_link_meaning.specs.Shapes.{shape_of, place_of};
ghost use Rattle.protox_io.specs.Count.{Rose, Later};
ghost use Rattle.protox_io.specs.Sink.{Appends};
ghost use Rattle.protox_lines_items.specs.Told.{IsCaused};
ghost use Rattle.protox_lines.specs.Converter.{IsConverter, IsNoConverter, GivesRecords, GivesLines};

use crate::lines::LineConverter;
use crate::records::RecordConverter;
use pbx_content::Schema;
use pbx_link::{DescriptorPool, MessageDescriptor};
use pbx_message_laws::kinds_have_types;
use pbx_shared::Shared;
use pbx_wire::{NoMemory, Text};
use protox_io::{Sink, Source};
use protox_lines_items::{LineCutter, LineError, RecordCutter, convert_items};
use protox_transcode::{TopError, check_clear};
use std::alloc::Global;
use std::marker::Model;

/// What converts messages of one type. Contracts see the message, which is one of a pool with clear names.
#[derive(Drop)]
pub struct Converter {
    message: MessageDescriptor,
    schema: Shared<Schema>,
    place: usize,
}

impl Model for Converter {
    ghost use Rattle.std.specs.Prelude.{◌≡◌};
    ghost use Rattle.pbx_desc_records.specs.declared.message.DescriptorProto.{DescriptorProto};
    ghost use Rattle.pbx_desc_records.specs.contracts.message.DescriptorProto as message_proto;
    ghost use Rattle.pbx_link_meaning.specs.Descriptors.{Described, described_code};
    ghost use Rattle.pbx_link_meaning.specs.Shapes.{shape_of, place_of};
    ghost use Rattle.protox_transcode.specs.Top.{HaveClearNames};

    ghost Value = { Described DescriptorProto };

    ghost coded = { described_code message_proto.the_row.coded };

    ghost view = { λ c. c.message };

    ghost invariant = { λ c. HaveClearNames c.message.pool × (c.schema ≡ shape_of c.message.pool) × (c.place ≡ place_of c.message) };
}

fn type_not_found(alloc: Global, type_name: &str) -> TopError
    ensures { (result ≡ TopError.NoMemory) ⊎ (result ≡ TopError.TypeNotFound type_name.now) }
{
    match Text::from_str(alloc, type_name) {
        Ok(name) => TopError::TypeNotFound { name },
        Err(NoMemory) => TopError::NoMemory,
    }
}

impl Converter {
    /// A converter of the messages of that full name. Refused are, in this order, a key with two meanings in the JSON of any message of the
    /// pool (`JsonNames`), a message of a well-known name without its shape (`WellKnownShape`), and the name (`TypeNotFound`); `NoMemory` is
    /// want of memory.
    pub fn new(alloc: Global, pool: &DescriptorPool, type_name: &str) -> Result<Converter, TopError>
        ensures made { IfOk result (IsConverter pool.now type_name.now) }
        ensures refused { IfErr result (IsNoConverter pool.now type_name.now) }
    {
        // What the proof cites: a message by its name is one of the pool.
        kinds_have_types();
        let _pooled = pool.files();
        match check_clear(alloc, pool) {
            Ok(()) => {}
            Err(error) => return Err(error),
        }
        let Some(message) = pool.get_message_by_name(type_name) else {
            return Err(type_not_found(alloc, type_name));
        };
        let Ok(schema) = message.schema() else {
            return Err(TopError::NoMemory);
        };
        let place = message.place(schema.as_ref());
        Ok(Converter {
            message,
            schema,
            place,
        })
    }

    /// Converts each line of JSON (JSON Lines) to a record with its length before it, until one is faulty, and says how many they were. Blank
    /// lines are none. Memory is that of the longest line, of at most 16 MiB, and of what it stands for, whatever the length of the stream.
    pub fn lines_to_records<S: Source, K: Sink>(
        &self,
        alloc: Global,
        input: &mut S,
        out: &mut K,
    ) -> Result<u64, LineError>
        // However the source cuts its bytes.
        ensures told { IsTrue (S.input input.old).tells → IsTrue (K.output out.old).tells → Appends (K.output out.old).held (K.output out.new).held
            (GivesRecords self.now (S.input input.old).left result) }
        // Over a source that does not tell, the same of some bytes: those that were read.
        ensures untold { IsTrue (K.output out.old).tells → Appends (K.output out.old).held (K.output out.new).held
            (λ said. (read : ListOf ℕ) × GivesRecords self.now read result said) }
        ensures end { IsTrue (S.input input.old).tells → OnOk result ((S.input input.new).left ≡ []) }
        ensures cause { IfErr result (IsCaused (Rose (S.count input.old) (S.count input.new)) (Rose (K.count out.old) (K.count out.new))) }
        ensures later { Later (S.count input.old) (S.count input.new) × Later (K.count out.old) (K.count out.new) }
        ensures keeps_tells { ((S.input input.new).tells ≡ (S.input input.old).tells) × ((K.output out.new).tells ≡ (K.output out.old).tells) }
    {
        let mut converter = LineConverter::new(alloc, self.schema.as_ref(), self.place);
        convert_items(alloc, LineCutter::new(alloc), &mut converter, input, out)
    }

    /// Converts each record behind its length to a line of JSON, until one is faulty, and says how many they were. Memory is that of the longest
    /// record, of at most 16 MiB, and of what it stands for, whatever the length of the stream.
    pub fn records_to_lines<S: Source, K: Sink>(
        &self,
        alloc: Global,
        input: &mut S,
        out: &mut K,
    ) -> Result<u64, LineError>
        ensures told { IsTrue (S.input input.old).tells → IsTrue (K.output out.old).tells → Appends (K.output out.old).held (K.output out.new).held
            (GivesLines self.now (S.input input.old).left result) }
        ensures untold { IsTrue (K.output out.old).tells → Appends (K.output out.old).held (K.output out.new).held
            (λ said. (read : ListOf ℕ) × GivesLines self.now read result said) }
        ensures end { IsTrue (S.input input.old).tells → OnOk result ((S.input input.new).left ≡ []) }
        ensures cause { IfErr result (IsCaused (Rose (S.count input.old) (S.count input.new)) (Rose (K.count out.old) (K.count out.new))) }
        ensures later { Later (S.count input.old) (S.count input.new) × Later (K.count out.old) (K.count out.new) }
        ensures keeps_tells { ((S.input input.new).tells ≡ (S.input input.old).tells) × ((K.output out.new).tells ≡ (K.output out.old).tells) }
    {
        let mut converter = RecordConverter::new(alloc, self.schema.as_ref(), self.place);
        convert_items(alloc, RecordCutter::new(alloc), &mut converter, input, out)
    }
}
