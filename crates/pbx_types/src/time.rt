ghost use Rattle.std.specs.Prelude.{◌≡◌, None, [], IfOk};
ghost use Rattle.pbx_desc_shapes.specs.TypesShape.{types_shape};
ghost use Rattle.pbx_types.specs.PlainContent.{duration_content, timestamp_content};
ghost use Rattle.pbx_desc.specs.Decoding.{Whole};
ghost use Rattle.pbx_types.specs.Exact.{is_exact_duration, is_exact_timestamp};

use crate::{
    FromContents, HasContents, kept_contents, kept_records, put_int32, put_int64, record_bytes,
    record_from_bytes, take_int32, take_int64,
};
use pbx_content_codec::Contents;
use pbx_desc::DecodeMessage;
use pbx_desc_encoding::Message;
use pbx_desc_shapes::well_known_place as place;
use pbx_wire::{DecodeError, NoMemory, Recs, copy_recs};
use std::alloc::Global;

/// A span of time, `google.protobuf.Duration`.
#[derive(Drop)]
pub struct Duration {
    /// The whole seconds.
    pub seconds: Option<i64>,
    /// The nanoseconds beside them, of the same sign.
    pub nanos: Option<i32>,
    /// The records of numbers that are no field of this one, in order of arrival.
    pub unknown: Recs,
}

impl Duration {
    /// The record with each field absent; takes no memory.
    pub fn new(alloc: Global) -> Duration
        ensures { result ≡ record { seconds = None; nanos = None; unknown = [] } }
    {
        Duration {
            seconds: None,
            nanos: None,
            unknown: Recs::new(alloc),
        }
    }

    /// An equal record. The only error is want of memory.
    pub fn copy(&self, alloc: Global) -> Result<Duration, NoMemory>
        ensures { IfOk result (λ copy. copy ≡ self.now) }
    {
        Ok(Duration {
            seconds: self.seconds,
            nanos: self.nanos,
            unknown: copy_recs(&self.unknown, alloc)?,
        })
    }
}

impl HasContents for Duration {
    ghost TYPE_AT = { 1 };

    ghost content = { duration_content };

    const TYPE_AT: usize = place::DURATION;

    fn to_contents(&self, alloc: Global) -> Result<Contents, NoMemory> {
        let mut contents = kept_contents(&self.unknown, &[1, 2], alloc)?;
        put_int64(&mut contents, 1, self.seconds)?;
        put_int32(&mut contents, 2, self.nanos)?;
        Ok(contents)
    }
}

impl Message for Duration {
    ghost shape = { λ _. types_shape };

    ghost type_at = { λ _. 1 };

    ghost content = { duration_content };

    fn encode_to_vec(&self, alloc: Global) -> Result<Vec<u8>, NoMemory> {
        record_bytes(alloc, self)
    }
}

impl FromContents for Duration {
    ghost TYPE_AT = { 1 };

    ghost content = { duration_content };

    ghost is_exact = { is_exact_duration };

    const TYPE_AT: usize = place::DURATION;

    fn from_contents(mut contents: Contents, _alloc: Global) -> Result<Duration, NoMemory> {
        let seconds = take_int64(&mut contents, 1);
        let nanos = take_int32(&mut contents, 2);
        Ok(Duration {
            seconds,
            nanos,
            unknown: kept_records(contents),
        })
    }
}

impl DecodeMessage for Duration {
    ghost SHAPE = { types_shape };

    ghost TYPE_AT = { 1 };

    ghost DECODING = { Whole };

    ghost is_exact = { is_exact_duration };

    fn decode(alloc: Global, bytes: &[u8]) -> Result<Duration, DecodeError> {
        record_from_bytes(alloc, bytes)
    }
}

/// A point in time, `google.protobuf.Timestamp`.
#[derive(Drop)]
pub struct Timestamp {
    /// The seconds since the start of 1970 in UTC.
    pub seconds: Option<i64>,
    /// The nanoseconds after that second.
    pub nanos: Option<i32>,
    /// The records of numbers that are no field of this one, in order of arrival.
    pub unknown: Recs,
}

impl Timestamp {
    /// The record with each field absent; takes no memory.
    pub fn new(alloc: Global) -> Timestamp
        ensures { result ≡ record { seconds = None; nanos = None; unknown = [] } }
    {
        Timestamp {
            seconds: None,
            nanos: None,
            unknown: Recs::new(alloc),
        }
    }

    /// An equal record. The only error is want of memory.
    pub fn copy(&self, alloc: Global) -> Result<Timestamp, NoMemory>
        ensures { IfOk result (λ copy. copy ≡ self.now) }
    {
        Ok(Timestamp {
            seconds: self.seconds,
            nanos: self.nanos,
            unknown: copy_recs(&self.unknown, alloc)?,
        })
    }
}

impl HasContents for Timestamp {
    ghost TYPE_AT = { 8 };

    ghost content = { timestamp_content };

    const TYPE_AT: usize = place::TIMESTAMP;

    fn to_contents(&self, alloc: Global) -> Result<Contents, NoMemory> {
        let mut contents = kept_contents(&self.unknown, &[1, 2], alloc)?;
        put_int64(&mut contents, 1, self.seconds)?;
        put_int32(&mut contents, 2, self.nanos)?;
        Ok(contents)
    }
}

impl Message for Timestamp {
    ghost shape = { λ _. types_shape };

    ghost type_at = { λ _. 8 };

    ghost content = { timestamp_content };

    fn encode_to_vec(&self, alloc: Global) -> Result<Vec<u8>, NoMemory> {
        record_bytes(alloc, self)
    }
}

impl FromContents for Timestamp {
    ghost TYPE_AT = { 8 };

    ghost content = { timestamp_content };

    ghost is_exact = { is_exact_timestamp };

    const TYPE_AT: usize = place::TIMESTAMP;

    fn from_contents(mut contents: Contents, _alloc: Global) -> Result<Timestamp, NoMemory> {
        let seconds = take_int64(&mut contents, 1);
        let nanos = take_int32(&mut contents, 2);
        Ok(Timestamp {
            seconds,
            nanos,
            unknown: kept_records(contents),
        })
    }
}

impl DecodeMessage for Timestamp {
    ghost SHAPE = { types_shape };

    ghost TYPE_AT = { 8 };

    ghost DECODING = { Whole };

    ghost is_exact = { is_exact_timestamp };

    fn decode(alloc: Global, bytes: &[u8]) -> Result<Timestamp, DecodeError> {
        record_from_bytes(alloc, bytes)
    }
}
