ghost use Rattle.std.specs.Prelude.{◌≡◌, ◌≤◌, ◌<◌, ◌+◌, ◌++◌, [], IsTrue, IfOk, IfErr, length};
ghost use Rattle.protox_io.specs.Count.{Rose, Later};
ghost use Rattle.protox_io.specs.Read.{ReadsAll, Reads, ReadFails, BlockFails};
ghost use Rattle.protox_io.specs.declared.read.ReadFault.TheVariants.{NoMemory as OutOfMemory};

use crate::{Failed, Source};
use pbx_wire::{Blob, NoMemory};
use std::alloc::Global;
use thiserror::Error;

/// Why a source was not read to its end.
#[derive(Clone, Copy, Debug, PartialEq, Eq, Error)]
pub enum ReadFault {
    /// The source failed.
    #[error("the source failed")]
    Failed,
    /// More bytes were left than the limit.
    #[error("the source has more bytes than may be read")]
    TooLong,
    /// Memory ran out.
    #[error("out of memory")]
    NoMemory,
}

impl From<NoMemory> for ReadFault {
    ghost from_gives = { λ _ e. e ≡ OutOfMemory };

    fn from(_refused: NoMemory) -> ReadFault {
        ReadFault::NoMemory
    }
}

// A block of 16 KiB, on the stack: one call of the system for many bytes, and no memory for each of very many short files.
const BLOCK: usize = 16384;

/// Moves at most a block of bytes from the source behind those that were read.
fn read_block<S: Source>(
    source: &mut S,
    block: &mut [u8],
    bytes: &mut Blob,
) -> Result<usize, ReadFault>
    requires { 0 < length block.old }
    ensures told { IsTrue (S.input source.old).tells → IfOk result (λ n. bytes.new ++ (S.input source.new).left ≡ bytes.old ++ (S.input source.old).left) }
    ensures end { IsTrue (S.input source.old).tells → IfOk result (λ n. n ≡ 0 → (S.input source.new).left ≡ []) }
    ensures front { IsTrue (S.input source.old).tells → Reads (S.input source.old).left (S.input source.new).left }
    ensures grows { IfOk result (λ n. length bytes.new ≡ length bytes.old + n) }
    ensures cause { IfErr result (BlockFails (Rose (S.count source.old) (S.count source.new))) }
    ensures later { Later (S.count source.old) (S.count source.new) }
    ensures keeps_tells { (S.input source.new).tells ≡ (S.input source.old).tells }
{
    match source.read(block) {
        Ok(n) => {
            bytes.append(&block[..n])?;
            Ok(n)
        }
        Err(Failed) => Err(ReadFault::Failed),
    }
}

/// Reads a source to its end, in blocks of 16 KiB. More bytes than the limit are refused; by then up to a block past the
/// limit has been read. The limit is in bytes.
pub fn read_to_end<S: Source>(
    alloc: Global,
    source: &mut S,
    limit: usize,
) -> Result<Blob, ReadFault>
    ensures within { IfOk result (λ bytes. length bytes ≤ limit) }
    ensures told { IsTrue (S.input source.old).tells → ReadsAll limit (S.input source.old).left (S.input source.new).left result }
    ensures front { IsTrue (S.input source.old).tells → Reads (S.input source.old).left (S.input source.new).left }
    ensures cause { IfErr result (ReadFails (Rose (S.count source.old) (S.count source.new))) }
    ensures later { Later (S.count source.old) (S.count source.new) }
    ensures keeps_tells { (S.input source.new).tells ≡ (S.input source.old).tells }
{
    let mut bytes = Blob::new(alloc);
    let mut blocks = [0u8; BLOCK];
    let block = &mut blocks[..];
    'reading: loop {
        if bytes.as_slice().len() > limit {
            return Err(ReadFault::TooLong);
        }
        match read_block(source, block, &mut bytes) {
            Ok(n) => {
                if n == 0 {
                    return Ok(bytes);
                }
            }
            Err(fault) => return Err(fault),
        }
    }
}
