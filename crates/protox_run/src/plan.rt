//! Reading what a run is asked for, and making what it writes.

ghost use Rattle.std.specs.Prelude.{◌≡◌, ◌≤◌, [], IfOk, IfErr, OnOk, IsTrue, IsFalse};
ghost use Rattle.std.specs.Prelude.{length, string_bytes, Some, option_map};
ghost use Rattle.protox_io.specs.Count.{Rose, RoseTimes, Later};
ghost use Rattle.serde_json.specs.View.{view};
ghost use Rattle.protox_words.specs.Told.{args_told};
ghost use Rattle.protox_compile.specs.Repeats.{repeats};
ghost use Rattle.protox_transcode.specs.Json.{json_of};
ghost use Rattle.protox_run.specs.Class.{limit, reads_input, repeated_of, resolves_of};
ghost use Rattle.protox_run.specs.Class.{Ready as IsReady, Transcoding, Generated, Judges};
ghost use Rattle.protox_run.specs.Parts.{IsJsonStop, IsInputStop, IsInputCause, IsTranscodingStop, IsGeneratedStop, PlanStops, Caused};
ghost use Rattle.protox_run.specs.Told.{stop_told, writes_told, line_told, Lasts};

use crate::carry::Ready;
use crate::files::{Job, Planned, from_files, stop_of};
use crate::stop::{Object, Refusal, Stop};
use pbx_wire::{Blob, List};
use protox_generate::transcode_generated;
use protox_io::{Disk, ReadFault, Source, read_to_end};
use protox_transcode::read_json_text;
use protox_words::Args;
use serde_json::Value;
use std::alloc::Global;

const LIMIT: usize = 1073741824;

fn read_input<'w, S: Source>(alloc: Global, input: &mut S) -> Result<Blob, Stop<'w>>
    ensures read { IsTrue (S.input input.old).tells → IfOk result (λ bytes. bytes ≡ (S.input input.old).left) }
    ensures end { IsTrue (S.input input.old).tells → OnOk result ((S.input input.new).left ≡ []) }
    ensures short { IfOk result (λ bytes. length bytes ≤ limit) }
    ensures stop { IsTrue (S.input input.old).tells → IfErr result (λ stop. IsInputStop (S.input input.old).left (stop_told stop)) }
    ensures cause { IfErr result (λ stop. IsInputCause (Rose (S.count input.old) (S.count input.new)) (stop_told stop)) }
    ensures lasts { Lasts (S.input input.old).tells (S.input input.new).tells (S.count input.old) (S.count input.new) }
{
    match read_to_end(alloc, input, LIMIT) {
        Ok(bytes) => Ok(bytes),
        Err(ReadFault::Failed) => Err(Stop::Broken(Object::Input)),
        Err(ReadFault::TooLong) => Err(Stop::Refused(Refusal::TooLong)),
        Err(ReadFault::NoMemory) => Err(Stop::NoMemory),
    }
}

/// The tree of a JSON text.
fn read_json<'w>(alloc: Global, input: &[u8]) -> Result<Value, Stop<'w>>
    ensures ok { IfOk result (λ tree. json_of input.now ≡ Some (view tree)) }
    ensures stop { IfErr result (λ stop. IsJsonStop input.now (stop_told stop)) }
{
    match read_json_text(alloc, input) {
        Ok(Some(tree)) => Ok(tree),
        Ok(None) => Err(Stop::Refused(Refusal::NotJson)),
        Err(_) => Err(Stop::NoMemory),
    }
}

/// The tree of the input.
fn read_tree<'w, S: Source>(alloc: Global, input: &mut S) -> Result<Value, Stop<'w>>
    ensures ok { IsTrue (S.input input.old).tells →
        IfOk result (λ tree. (length (S.input input.old).left ≤ limit) × (json_of (S.input input.old).left ≡ Some (view tree))) }
    ensures end { IsTrue (S.input input.old).tells → OnOk result ((S.input input.new).left ≡ []) }
    ensures stop { IsTrue (S.input input.old).tells → IfErr result (λ stop. IsInputStop (S.input input.old).left (stop_told stop)) }
    ensures cause { IfErr result (λ stop. IsInputCause (Rose (S.count input.old) (S.count input.new)) (stop_told stop)) }
    ensures lasts { Lasts (S.input input.old).tells (S.input input.new).tells (S.count input.old) (S.count input.new) }
{
    let bytes = match read_input(alloc, input) {
        Ok(bytes) => bytes,
        Err(stop) => return Err(stop),
    };
    match read_json(alloc, bytes.as_slice()) {
        Ok(tree) => Ok(tree),
        Err(stop) => Err(stop),
    }
}

/// Reads the input and the files, and transcodes.
fn plan_transcoding<'w, D: Disk, S: Source>(
    alloc: Global,
    args: &Args<'w>,
    name: &str,
    disk: D,
    input: &mut S,
) -> Planned<'w, D>
    ensures done { IsTrue (D.volume disk).tells → IsTrue (S.input input.old).tells → IfOk result.result (λ ready.
        Transcoding (args_told args.now) name.now (D.volume disk) (S.input input.old).left
        (IsReady (writes_told ready) (line_told (option_map string_bytes ready.line)))) }
    ensures repeated { IsTrue (D.volume disk).tells → IfOk result.result (λ ready. ready.repeated ≡ repeats (resolves_of (args_told args.now)) args.now.files) }
    ensures stop { IsTrue (D.volume disk).tells → IsTrue (S.input input.old).tells → IfErr result.result (λ stop.
        IsTranscodingStop (args_told args.now) name.now (D.volume disk) (S.input input.old).left (stop_told stop)) }
    ensures end { IsTrue (S.input input.old).tells → OnOk result.result ((S.input input.new).left ≡ []) }
    ensures cause { IfErr result.result (λ stop. Caused (args_told args.now) (λ times. RoseTimes times (D.count disk) (D.count result.disk))
        (Rose (S.count input.old) (S.count input.new)) ⊥ (stop_told stop)) }
    ensures later { Later (D.count disk) (D.count result.disk) }
    ensures keeps { D.volume result.disk ≡ D.volume disk }
    ensures lasts { Lasts (S.input input.old).tells (S.input input.new).tells (S.count input.old) (S.count input.new) }
{
    match read_tree(alloc, input) {
        Ok(tree) => from_files(alloc, args, Job::Transcode { name, tree }, disk),
        Err(stop) => Planned {
            disk,
            result: Err(stop),
        },
    }
}

/// The summary of the schema of that number, to be printed.
fn generate<'w>(alloc: Global, number: u16) -> Result<Ready<'w>, Stop<'w>>
    ensures done { IfOk result (λ ready. Generated number (writes_told ready) (line_told (option_map string_bytes ready.line))) }
    ensures repeated { IfOk result (λ ready. ready.repeated ≡ []) }
    ensures stop { IfErr result (λ stop. IsGeneratedStop number (stop_told stop)) }
{
    match transcode_generated(alloc, number) {
        Ok(line) => Ok(Ready {
            set: None,
            wire: None,
            line: Some(line),
            repeated: List::new(alloc),
        }),
        Err(error) => {
            let stop = stop_of(alloc, &error);
            drop(error);
            Err(stop)
        }
    }
}

/// Reads what the words ask for, and makes what is to be written.
pub(crate) fn plan<'w, D: Disk, S: Source>(
    alloc: Global,
    args: &Args<'w>,
    disk: D,
    input: &mut S,
) -> Planned<'w, D>
    ensures done { IsTrue (D.volume disk).tells → IsTrue (S.input input.old).tells → IfOk result.result (λ ready.
        Judges (args_told args.now) (D.volume disk) (S.input input.old).left
        (IsReady (writes_told ready) (line_told (option_map string_bytes ready.line)))) }
    ensures repeated { IsTrue (D.volume disk).tells → IfOk result.result (λ ready. ready.repeated ≡ repeated_of (args_told args.now)) }
    ensures stop { IsTrue (D.volume disk).tells → IsTrue (S.input input.old).tells →
        IfErr result.result (λ stop. PlanStops (args_told args.now) (D.volume disk) (S.input input.old).left (stop_told stop)) }
    ensures end { IsTrue (S.input input.old).tells → IsTrue (reads_input (args_told args.now)) → OnOk result.result ((S.input input.new).left ≡ []) }
    ensures unread { IsFalse (reads_input (args_told args.now)) → S.input input.new ≡ S.input input.old }
    ensures cause { IfErr result.result (λ stop. Caused (args_told args.now) (λ times. RoseTimes times (D.count disk) (D.count result.disk))
        (Rose (S.count input.old) (S.count input.new)) ⊥ (stop_told stop)) }
    ensures later { Later (D.count disk) (D.count result.disk) }
    ensures keeps { D.volume result.disk ≡ D.volume disk }
    ensures lasts { Lasts (S.input input.old).tells (S.input input.new).tells (S.count input.old) (S.count input.new) }
{
    match args.generate {
        Some(number) => Planned {
            disk,
            result: generate(alloc, number),
        },
        None => match args.type_name {
            Some(name) => plan_transcoding(alloc, args, name, disk, input),
            None => from_files(alloc, args, Job::Compile, disk),
        },
    }
}
