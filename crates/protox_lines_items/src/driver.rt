//! Converting a whole stream.

ghost use Rattle.std.specs.Prelude.{Err as ErrOf, ◌≡◌, ◌≢◌, ◌≤◌, ◌+◌, ◌<◌, ◌-◌, ◌++◌, ℕ, [], List as ListOf, IfOk, IfErr, OnOk, IsTrue, length, drop, take as take_bytes};
ghost use Rattle.protox_io.specs.Count.{Rose, Later};
ghost use Rattle.protox_io.specs.Sink.{Appends};
ghost use Rattle.protox_lines_items.specs.Items.{most, longest};
ghost use Rattle.protox_lines_items.specs.Told.{IsCaused, Faulty};
ghost use Rattle.protox_lines_items.specs.Cutting.{ConvertsBy};
ghost use Rattle.protox_lines_items.specs.Writing.{ItemComes, ForProgress, Goes, EndsBy, IsEnded};
ghost use Rattle.protox_lines_items.specs.Writing.{item_error as item_error_of, cut_error as cut_error_of};
ghost use Rattle.protox_lines_items.specs.declared.error.ItemFault.{ItemFault as FaultOf};

use crate::bytes::{behind, front};
use crate::convert::ConvertItem;
use crate::cutter::{CutFault, Cutter, Last};
use crate::error::{ItemFault, LineError};
use crate::writer::{BLOCK, flush, put, told_behind};
use pbx_wire::Blob;
use protox_io::{Failed, Sink, Source};
use std::alloc::Global;

/// The most bytes of a stream, 1 TiB.
const MOST: u64 = 1099511627776;

/// What was converted and not written yet, and how many items were converted.
#[derive(Drop)]
struct Written {
    gathered: Blob,
    count: u64,
}

/// The error of a fault of the item of this number.
fn item_error(fault: ItemFault, item: u64) -> LineError
    ensures { result ≡ item_error_of item fault }
{
    match fault {
        ItemFault::NotJson => LineError::NotJson { item },
        ItemFault::Json(error) => LineError::Json { item, error },
        ItemFault::TooDeep => LineError::TooDeep { item },
        ItemFault::TooLong => LineError::LineTooLong { item },
        ItemFault::Decode(error) => LineError::Decode { item, error },
        ItemFault::NoMemory => LineError::NoMemory,
    }
}

/// The error of a fault of cutting the item of this number.
fn cut_error(fault: CutFault, item: u64) -> LineError
    ensures { result ≡ cut_error_of item fault }
{
    match fault {
        CutFault::TooLong => LineError::LineTooLong { item },
        CutFault::Malformed => LineError::BadLength { item },
        CutFault::Oversized => LineError::RecordTooLong { item },
        CutFault::NoMemory => LineError::NoMemory,
    }
}

/// Converts an item, and puts it behind those that were converted.
fn convert_item<V: ConvertItem, K: Sink>(
    alloc: Global,
    converter: &mut V,
    item: &[u8],
    out: &mut K,
    written: &mut Written,
) -> Result<(), LineError>
    requires { written.old.count ≤ most }
    ensures told { IsTrue (K.output out.old).tells → ItemComes (V.converted converter.old) (V.faulty converter.old) item.now
        (K.output out.old).held written.old.gathered written.old.count (K.output out.new).held written.new.gathered written.new.count result }
    ensures count { OnOk result (written.new.count ≡ written.old.count + 1) }
    ensures cause { IfErr result (IsCaused ⊥ (Rose (K.count out.old) (K.count out.new))) }
    ensures later { Later (K.count out.old) (K.count out.new) }
    ensures keeps_tells { (K.output out.new).tells ≡ (K.output out.old).tells }
    ensures same { V.converted converter.new ≡ V.converted converter.old }
    ensures same_faults { (x : ListOf ℕ) (e : FaultOf) → V.faulty converter.new x e → V.faulty converter.old x e }
{
    match converter.convert(alloc, item) {
        Ok(bytes) => match put(alloc, out, &mut written.gathered, bytes.as_slice()) {
            Ok(()) => {
                written.count += 1;
                Ok(())
            }
            Err(error) => Err(error),
        },
        Err(fault) => {
            let error = item_error(fault, written.count + 1);
            Err(told_behind(alloc, out, &mut written.gathered, error))
        }
    }
}

/// Takes the first of these bytes, converts the item that they end, if they do, and says how many it took.
fn take_item<C: Cutter, V: ConvertItem, K: Sink>(
    alloc: Global,
    cutter: &mut C,
    converter: &mut V,
    bytes: &[u8],
    out: &mut K,
    written: &mut Written,
) -> Result<usize, LineError>
    requires { written.old.count ≤ most }
    ensures within { IfOk result (λ n. n ≤ length bytes.now) }
    ensures some { IfOk result (λ n. 0 < length bytes.now → 0 < n) }
    ensures count { OnOk result (written.new.count ≤ written.old.count + 1) }
    ensures goes { IsTrue (K.output out.old).tells → IfOk result (λ n. ForProgress (C.stands cutter.old) (V.converted converter.old)
        (K.output out.old).held written.old.gathered written.old.count (λ first read items. length (read ++ bytes.now) ≤ most
        → Goes (C.stands cutter.new) (V.converted converter.old) (K.output out.new).held written.new.gathered written.new.count first (read ++ take_bytes n bytes.now))) }
    ensures ends { IsTrue (K.output out.old).tells → IfErr result (λ e. ForProgress (C.stands cutter.old) (V.converted converter.old)
        (K.output out.old).held written.old.gathered written.old.count (λ first read items. length (read ++ bytes.now) ≤ most
        → EndsBy C.cuts (V.converted converter.old) (V.faulty converter.old) (read ++ bytes.now) e first (K.output out.new).held)) }
    ensures cause { IfErr result (IsCaused ⊥ (Rose (K.count out.old) (K.count out.new))) }
    ensures later { Later (K.count out.old) (K.count out.new) }
    ensures keeps_tells { (K.output out.new).tells ≡ (K.output out.old).tells }
    ensures same { V.converted converter.new ≡ V.converted converter.old }
    ensures same_faults { (x : ListOf ℕ) (e : FaultOf) → V.faulty converter.new x e → V.faulty converter.old x e }
{
    match cutter.take(bytes) {
        Ok(taken) => {
            if taken.whole {
                match convert_item(alloc, converter, cutter.item(), out, written) {
                    Ok(()) => {}
                    Err(error) => return Err(error),
                }
            }
            Ok(taken.count)
        }
        Err(fault) => {
            let error = cut_error(fault, written.count + 1);
            Err(told_behind(alloc, out, &mut written.gathered, error))
        }
    }
}

/// Takes all of these bytes, and converts the items that they end.
fn take_all<C: Cutter, V: ConvertItem, K: Sink>(
    alloc: Global,
    cutter: &mut C,
    converter: &mut V,
    bytes: &[u8],
    out: &mut K,
    written: &mut Written,
) -> Result<(), LineError>
    requires { written.old.count + length bytes.now ≤ most }
    ensures count { OnOk result (written.new.count ≤ written.old.count + length bytes.now) }
    ensures goes { IsTrue (K.output out.old).tells → OnOk result (ForProgress (C.stands cutter.old) (V.converted converter.old)
        (K.output out.old).held written.old.gathered written.old.count (λ first read items. length (read ++ bytes.now) ≤ most
        → Goes (C.stands cutter.new) (V.converted converter.old) (K.output out.new).held written.new.gathered written.new.count first (read ++ bytes.now))) }
    ensures ends { IsTrue (K.output out.old).tells → IfErr result (λ e. ForProgress (C.stands cutter.old) (V.converted converter.old)
        (K.output out.old).held written.old.gathered written.old.count (λ first read items. length (read ++ bytes.now) ≤ most
        → EndsBy C.cuts (V.converted converter.old) (V.faulty converter.old) (read ++ bytes.now) e first (K.output out.new).held)) }
    ensures cause { IfErr result (IsCaused ⊥ (Rose (K.count out.old) (K.count out.new))) }
    ensures later { Later (K.count out.old) (K.count out.new) }
    ensures keeps_tells { (K.output out.new).tells ≡ (K.output out.old).tells }
    ensures same { V.converted converter.new ≡ V.converted converter.old }
    ensures same_faults { (x : ListOf ℕ) (e : FaultOf) → V.faulty converter.new x e → V.faulty converter.old x e }
{
    let mut rest = bytes;
    'taking: while !rest.is_empty() {
        match take_item(alloc, cutter, converter, rest, out, written) {
            Ok(count) => rest = behind(rest, count),
            Err(error) => return Err(error),
        }
    }
    Ok(())
}

/// Converts the item that stands behind the last whole one, where no more bytes follow.
fn take_last<C: Cutter, V: ConvertItem, K: Sink>(
    alloc: Global,
    cutter: &C,
    converter: &mut V,
    out: &mut K,
    written: &mut Written,
) -> Result<(), LineError>
    requires { written.old.count ≤ most }
    ensures goes { IsTrue (K.output out.old).tells → OnOk result (ForProgress (C.stands cutter.now) (V.converted converter.old)
        (K.output out.old).held written.old.gathered written.old.count (λ first read items. length read ≤ most
        → Goes (IsEnded C.cuts) (V.converted converter.old) (K.output out.new).held written.new.gathered written.new.count first read)) }
    ensures ends { IsTrue (K.output out.old).tells → IfErr result (λ e. ForProgress (C.stands cutter.now) (V.converted converter.old)
        (K.output out.old).held written.old.gathered written.old.count (λ first read items. length read ≤ most
        → Appends first (K.output out.new).held (ConvertsBy C.cuts (V.converted converter.old) (V.faulty converter.old) read (ErrOf e)))) }
    ensures cause { IfErr result (IsCaused ⊥ (Rose (K.count out.old) (K.count out.new))) }
    ensures later { Later (K.count out.old) (K.count out.new) }
    ensures keeps_tells { (K.output out.new).tells ≡ (K.output out.old).tells }
{
    match cutter.last() {
        Last::Nothing => Ok(()),
        Last::Item => convert_item(alloc, converter, cutter.item(), out, written),
        Last::CutOff => {
            let error = LineError::CutOff {
                item: written.count + 1,
            };
            Err(told_behind(alloc, out, &mut written.gathered, error))
        }
    }
}

/// Ends a conversion of which all bytes were taken, and says how many items they were.
fn finish<C: Cutter, V: ConvertItem, K: Sink>(
    alloc: Global,
    cutter: &C,
    converter: &mut V,
    out: &mut K,
    written: &mut Written,
) -> Result<u64, LineError>
    requires { written.old.count ≤ most }
    ensures told { IsTrue (K.output out.old).tells → ForProgress (C.stands cutter.now) (V.converted converter.old)
        (K.output out.old).held written.old.gathered written.old.count (λ first read items. length read ≤ most
        → Appends first (K.output out.new).held (ConvertsBy C.cuts (V.converted converter.old) (V.faulty converter.old) read result)) }
    ensures cause { IfErr result (IsCaused ⊥ (Rose (K.count out.old) (K.count out.new))) }
    ensures later { Later (K.count out.old) (K.count out.new) }
    ensures keeps_tells { (K.output out.new).tells ≡ (K.output out.old).tells }
{
    match take_last(alloc, cutter, converter, out, written) {
        Ok(()) => {}
        Err(error) => return Err(error),
    }
    match flush(alloc, out, &mut written.gathered) {
        Ok(()) => Ok(written.count),
        Err(error) => Err(error),
    }
}

/// How many of so many bytes still count, where these were read before.
fn counted(bytes: usize, read: u64) -> usize
    requires { read ≤ most }
    ensures within { result ≤ bytes }
    ensures room { read + result ≤ most }
    ensures all { result < bytes → read + result ≡ most }
{
    let room = MOST - read;
    if bytes as u64 > room {
        room as usize
    } else {
        bytes
    }
}

/// Converts each item of a stream, until one is faulty, and says how many they were. What the items before it come to is written, whatever
/// the answer, unless the source or the sink fails or memory runs out: then the first bytes of that are. The stream is read in blocks of 64 KiB, and
/// written in such. Memory is that of one item, of these blocks and of what converting an item takes, whatever the length of the stream.
pub fn convert_items<C: Cutter + Drop, V: ConvertItem, S: Source, K: Sink>(
    alloc: Global,
    cutter: C,
    converter: &mut V,
    input: &mut S,
    out: &mut K,
) -> Result<u64, LineError>
    requires { C.stands cutter [] [] }
    // However the source cuts its bytes.
    ensures told { IsTrue (S.input input.old).tells → IsTrue (K.output out.old).tells → Appends (K.output out.old).held (K.output out.new).held
        (ConvertsBy C.cuts (V.converted converter.old) (V.faulty converter.old) (S.input input.old).left result) }
    // Over a source that does not tell, the same of some bytes: those that were read.
    ensures untold { IsTrue (K.output out.old).tells → Appends (K.output out.old).held (K.output out.new).held
        (λ said. (read : ListOf ℕ) × ConvertsBy C.cuts (V.converted converter.old) (V.faulty converter.old) read result said) }
    ensures end { IsTrue (S.input input.old).tells → OnOk result ((S.input input.new).left ≡ []) }
    ensures cause { IfErr result (IsCaused (Rose (S.count input.old) (S.count input.new)) (Rose (K.count out.old) (K.count out.new))) }
    ensures later { Later (S.count input.old) (S.count input.new) × Later (K.count out.old) (K.count out.new) }
    ensures keeps_tells { ((S.input input.new).tells ≡ (S.input input.old).tells) × ((K.output out.new).tells ≡ (K.output out.old).tells) }
{
    let mut cutter = cutter;
    let mut written = Written {
        gathered: Blob::new(alloc),
        count: 0,
    };
    let mut blocks = [0u8; BLOCK];
    let block = &mut blocks[..];
    let mut read: u64 = 0;
    'reading: loop {
        let n = match input.read(block) {
            Ok(n) => n,
            Err(Failed) => {
                let error = told_behind(alloc, out, &mut written.gathered, LineError::ReadFault);
                return Err(error);
            }
        };
        if n == 0 {
            return finish(alloc, &cutter, converter, out, &mut written);
        }
        let count = counted(n, read);
        match take_all(
            alloc,
            &mut cutter,
            converter,
            front(block, count),
            out,
            &mut written,
        ) {
            Ok(()) => {}
            Err(error) => return Err(error),
        }
        if count < n {
            return Err(told_behind(alloc, out, &mut written.gathered, LineError::TooMuch));
        }
        read += n as u64;
    }
}
