//! The program: words that name a set and a type, and a stream that is converted.

ghost use Rattle.std.specs.Prelude.{◌≡◌, ◌∷◌, [], IfErr, OnOk, IsTrue, option_map};
ghost use Rattle.protox_io.specs.Count.{Rose, Later};
ghost use Rattle.protox_io.specs.Sink.{Appends, Says, SinkRefuses};
ghost use Rattle.protox_run.specs.Told.{Lasts};
ghost use Rattle.protox_lines.specs.Run.{asked as asked_of, direction_named, RunsLines};
ghost use Rattle.protox_lines.specs.Running.{direction_told, request_told, IsConverterStop, IsStreamStop, EndsAs, StreamEnds, RunEnds, IsUsage, IsStreamCause, IsRunCause, status_of, line_told};

use crate::converter::Converter;
use crate::told::error_line;
use pbx_link::DescriptorPool;
use pbx_wire::{NoMemory, Texts};
use protox_io::{Disk, Sink, Source};
use protox_lines_items::LineError;
use protox_run::Ran;
use protox_sets::{Stop, read_pool, report};
use protox_transcode::TopError;
use std::alloc::Global;
use std::mem::drop;

/// From lines of JSON to records, or back.
#[derive(Clone, Copy, Debug, Drop)]
pub(crate) enum Direction {
    ToRecords,
    ToLines,
}

/// What the words ask for.
#[derive(Clone, Copy, Debug, Drop)]
pub(crate) struct Request<'w> {
    direction: Direction,
    set: &'w str,
    name: &'w str,
}

/// How the program is called.
const USAGE: &str = "usage: protox_lines to|from SET TYPE";

fn direction_of(word: &str) -> Option<Direction>
    ensures { option_map direction_told result ≡ direction_named word.now }
{
    match word {
        "to" => Some(Direction::ToRecords),
        "from" => Some(Direction::ToLines),
        _ => None,
    }
}

/// What words ask for, where they are of the number and form that the program takes.
fn asked(words: &Texts) -> Option<Request<'_>>
    ensures { option_map request_told result ≡ asked_of words.now }
{
    let words = words.as_slice();
    if words.len() != 3 {
        return None;
    }
    match direction_of(words[0].as_str()) {
        Some(direction) => Some(Request {
            direction,
            set: words[1].as_str(),
            name: words[2].as_str(),
        }),
        None => None,
    }
}

/// The stop of a pool that has no converter.
fn converter_stop(alloc: Global, error: &TopError) -> Stop
    ensures { IsConverterStop error.now result }
{
    let Ok(line) = error.line(alloc) else {
        return Stop::NoMemory;
    };
    if error.is_refusal() {
        Stop::Refused(line)
    } else {
        Stop::NoMemory
    }
}

/// The stop of a stream that is not converted to its end.
fn stream_stop(alloc: Global, error: &LineError) -> Stop
    ensures { IsStreamStop error.now result }
{
    if matches!(error, LineError::NoMemory) {
        return Stop::NoMemory;
    }
    let Ok(line) = error_line(alloc, error) else {
        return Stop::NoMemory;
    };
    match error {
        LineError::ReadFault | LineError::WriteFault => Stop::Broken(line),
        _ => Stop::Refused(line),
    }
}

/// How the conversion of a stream ends a run.
fn ended(alloc: Global, converted: Result<u64, LineError>) -> Result<(), Stop>
    ensures { EndsAs converted result }
{
    match converted {
        Ok(_) => Ok(()),
        Err(error) => {
            let stop = stream_stop(alloc, &error);
            drop(error);
            Err(stop)
        }
    }
}

/// Converts the input.
fn convert<S: Source, K: Sink>(
    alloc: Global,
    direction: Direction,
    converter: &Converter,
    input: &mut S,
    out: &mut K,
) -> Result<(), Stop>
    ensures told { IsTrue (S.input input.old).tells → IsTrue (K.output out.old).tells → Appends (K.output out.old).held (K.output out.new).held
        (StreamEnds (direction_told direction) converter.now (S.input input.old).left result) }
    ensures end { IsTrue (S.input input.old).tells → OnOk result ((S.input input.new).left ≡ []) }
    ensures cause { IfErr result (IsStreamCause (Rose (S.count input.old) (S.count input.new)) (Rose (K.count out.old) (K.count out.new))) }
    ensures lasts { Lasts (S.input input.old).tells (S.input input.new).tells (S.count input.old) (S.count input.new) }
    ensures out_lasts { Lasts (K.output out.old).tells (K.output out.new).tells (K.count out.old) (K.count out.new) }
{
    match direction {
        Direction::ToRecords => ended(alloc, converter.lines_to_records(alloc, input, out)),
        Direction::ToLines => ended(alloc, converter.records_to_lines(alloc, input, out)),
    }
}

/// Does what the words ask for.
fn obey<D: Disk, S: Source, K: Sink>(
    alloc: Global,
    words: &Texts,
    disk: &mut D,
    input: &mut S,
    out: &mut K,
) -> Result<(), Stop>
    ensures told { IsTrue (D.volume disk.old).tells → IsTrue (S.input input.old).tells → IsTrue (K.output out.old).tells →
        Appends (K.output out.old).held (K.output out.new).held
        (RunEnds (asked_of words.now) (D.volume disk.old) (S.input input.old).left result) }
    ensures words { IsUsage (asked_of words.now) result }
    ensures end { IsTrue (S.input input.old).tells → OnOk result ((S.input input.new).left ≡ []) }
    ensures cause { IfErr result (IsRunCause (asked_of words.now) (Rose (D.count disk.old) (D.count disk.new))
        (Rose (S.count input.old) (S.count input.new)) (Rose (K.count out.old) (K.count out.new))) }
    ensures keeps { D.volume disk.new ≡ D.volume disk.old }
    ensures later { Later (D.count disk.old) (D.count disk.new) }
    ensures lasts { Lasts (S.input input.old).tells (S.input input.new).tells (S.count input.old) (S.count input.new) }
    ensures out_lasts { Lasts (K.output out.old).tells (K.output out.new).tells (K.count out.old) (K.count out.new) }
{
    let Some(request) = asked(words) else {
        return Err(Stop::Usage);
    };
    let pool = match read_pool(alloc, disk, request.set) {
        Ok(pool) => pool,
        Err(stop) => return Err(stop),
    };
    match Converter::new(alloc, &pool, request.name) {
        Ok(converter) => convert(alloc, request.direction, &converter, input, out),
        Err(error) => Err(converter_stop(alloc, &error)),
    }
}

/// Says on err why the run was stopped, if it was, and gives its status.
fn tell<E: Sink>(err: &mut E, ended: &Result<(), Stop>) -> u8
    ensures status { result ≡ status_of ended.now }
    ensures said { Says (E.output err.old).tells (SinkRefuses (Rose (E.count err.old) (E.count err.new)) (E.output err.new).short) (E.output err.old).held
        (E.output err.new).held (line_told ended.now) }
    ensures lasts { Lasts (E.output err.old).tells (E.output err.new).tells (E.count err.old) (E.count err.new) }
{
    match ended {
        Ok(()) => 0,
        Err(stop) => report(err, USAGE, stop),
    }
}

/// The whole program `protox_lines`. The words are `to SET TYPE` or `from SET TYPE`: the messages are those of the type of this full name, among the
/// files of the descriptor set at the path. With `to` the input is lines of JSON, and each comes out as a record with its length before
/// it; with `from` it is such records, and each comes out as a line of JSON. The input is converted until an item is faulty.
pub fn run_lines<D: Disk, S: Source, K: Sink, E: Sink>(
    alloc: Global,
    words: &Texts,
    disk: D,
    input: &mut S,
    out: &mut K,
    err: &mut E,
) -> Ran<D>
    ensures { RunsLines (record {
      words = words.now;
      disk = record { old = D.volume disk; new = D.volume result.disk; before = D.count disk; after = D.count result.disk };
      input = record { old = S.input input.old; new = S.input input.new; before = S.count input.old; after = S.count input.new };
      out = record { old = K.output out.old; new = K.output out.new; before = K.count out.old; after = K.count out.new };
      err = record { old = E.output err.old; new = E.output err.new; before = E.count err.old; after = E.count err.new };
      status = result.status;
    }) }
{
    let mut disk = disk;
    let ended = obey(alloc, words, &mut disk, input, out);
    let status = tell(err, &ended);
    Ran { disk, status }
}
