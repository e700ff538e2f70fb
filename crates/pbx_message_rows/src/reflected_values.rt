//! Values of the types that a row names.

use crate::pool_of;
use crate::reflected::{reflected, reflected_last};
use crate::reflected_records::well_known;
use bytes::Bytes;
use pbx_link::DescriptorPool;
use pbx_wkt::make_wkt_descriptor_pool;
use std::alloc::Global;
use std::mem::drop;
use test_rows::{Row, Stop};

/// The pool of that word, or of that set of files.
fn named_pool(alloc: Global, word: &str) -> Result<DescriptorPool, Stop> {
    match word {
        "built-in" => Ok(make_wkt_descriptor_pool(alloc)?),
        "empty" => Ok(DescriptorPool::new(alloc)?),
        digits => pool_of(alloc, digits),
    }
}

/// What is told of the row's value as one of the type of this name.
fn single(alloc: Global, pool: &DescriptorPool, row: &Row, sort: &str) -> Result<String, Stop> {
    let text = row.text(1);
    match sort {
        "()" => reflected(alloc, pool, &()),
        "bool" => reflected(alloc, pool, &text.parse::<bool>().unwrap_or(false)),
        "i32" => reflected(alloc, pool, &text.parse::<i32>().unwrap_or(0)),
        "i64" => reflected(alloc, pool, &text.parse::<i64>().unwrap_or(0)),
        "u32" => reflected(alloc, pool, &text.parse::<u32>().unwrap_or(0)),
        "u64" => reflected(alloc, pool, &text.parse::<u64>().unwrap_or(0)),
        _ => owned(alloc, pool, row, sort),
    }
}

/// The same of a value that takes memory.
fn owned(alloc: Global, pool: &DescriptorPool, row: &Row, sort: &str) -> Result<String, Stop> {
    match sort {
        "String" => reflected_last(alloc, pool, String::from_str(alloc, row.text(1))?),
        "Vec<u8>" => reflected_last(alloc, pool, Vec::from_slice(alloc, row.bytes(1))?),
        "Bytes" => reflected_last(alloc, pool, Bytes::copy_from_slice(alloc, row.bytes(1))?),
        "Box<i32>" => {
            let number = row.text(1).parse::<i32>().unwrap_or(0);
            reflected_last(alloc, pool, Box::new(alloc, number)?)
        }
        _ => well_known(alloc, pool, row, sort),
    }
}

/// What is told of the row's value in the row's pool, as one of the type of this name.
pub(crate) fn answer(alloc: Global, row: &Row, sort: &str) -> Result<String, Stop> {
    let pool = named_pool(alloc, row.text(0))?;
    let told = single(alloc, &pool, row, sort);
    drop(pool);
    told
}
