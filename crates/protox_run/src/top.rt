ghost use Rattle.std.specs.Prelude.{◌≡◌, [], OnOk, IsTrue, IsFalse, None};
ghost use Rattle.protox_io.specs.Count.{Rose, RoseTimes};
ghost use Rattle.protox_io.specs.Sink.{Appends, SinkRefuses};
ghost use Rattle.protox_words.specs.Words.{args_of};
ghost use Rattle.protox_words.specs.Told.{args_told};
ghost use Rattle.protox_run.specs.Class.{reads_input, repeated_of};
ghost use Rattle.protox_run.specs.Parts.{Works, Comes, CausedEnd, EndsFor, HasNotes};
ghost use Rattle.protox_run.specs.Run.{Runs, ReadsInput};
ghost use Rattle.protox_run.specs.Told.{ended, notes_told, Lasts};

use crate::carry::carry;
use crate::files::Planned;
use crate::plan::plan;
use crate::report::report;
use crate::stop::{Notes, Stop};
use pbx_wire::{List, Texts};
use protox_io::{Disk, Sink, Source};
use protox_words::{Args, WordsError, read_words};
use std::alloc::Global;

/// What a run leaves: the disk, and the status of the program.
#[derive(Drop)]
pub struct Ran<D> {
    /// The disk.
    pub disk: D,
    /// 0 where all is done; 1 where the input is refused; 2 where the words are; 3 where something outside failed, which is
    /// reading or writing a file, the input or the output; 4 for want of memory.
    pub status: u8,
}

/// What the work leaves: the disk, how it ended, and the indices of the paths that were given again where all was done.
#[derive(Drop)]
struct Worked<'w, D> {
    disk: D,
    ended: Result<(), Stop<'w>>,
    repeated: List<u64>,
}

/// What obeying the words leaves: the disk, how it ended, and what err is to be told where all was done.
#[derive(Drop)]
struct Obeyed<'w, D> {
    disk: D,
    ended: Result<(), Stop<'w>>,
    notes: Notes,
}

/// Does what the arguments ask for.
fn work<'w, D: Disk, S: Source, K: Sink>(
    alloc: Global,
    args: &Args<'w>,
    disk: D,
    input: &mut S,
    out: &mut K,
) -> Worked<'w, D>
    ensures told { IsTrue (D.volume disk).tells → IsTrue (S.input input.old).tells → IsTrue (K.output out.old).tells →
        Appends (K.output out.old).held (K.output out.new).held
        (Works (args_told args.now) (D.volume disk) (S.input input.old).left (D.volume result.disk)
        (Rose (D.count disk) (D.count result.disk))
        (SinkRefuses (Rose (K.count out.old) (K.count out.new)) (K.output out.new).short) (ended result.ended)) }
    ensures cause { CausedEnd (args_told args.now) (λ times. RoseTimes times (D.count disk) (D.count result.disk))
        (Rose (S.count input.old) (S.count input.new)) (Rose (K.count out.old) (K.count out.new)) (ended result.ended) }
    ensures repeated { IsTrue (D.volume disk).tells → OnOk result.ended (result.repeated ≡ repeated_of (args_told args.now)) }
    ensures end { IsTrue (S.input input.old).tells → IsTrue (reads_input (args_told args.now)) → OnOk result.ended ((S.input input.new).left ≡ []) }
    ensures unread { IsFalse (reads_input (args_told args.now)) → S.input input.new ≡ S.input input.old }
    ensures lasts { Lasts (S.input input.old).tells (S.input input.new).tells (S.count input.old) (S.count input.new) }
    ensures disk_lasts { Lasts (D.volume disk).tells (D.volume result.disk).tells (D.count disk) (D.count result.disk) }
    ensures out_lasts { Lasts (K.output out.old).tells (K.output out.new).tells (K.count out.old) (K.count out.new) }
{
    let Planned { disk, result } = plan(alloc, args, disk, input);
    match result {
        Ok(ready) => {
            let mut disk = disk;
            let ended = carry(alloc, &mut disk, out, &ready);
            Worked {
                disk,
                ended,
                repeated: ready.repeated,
            }
        }
        Err(stop) => Worked {
            disk,
            ended: Err(stop),
            repeated: List::new(alloc),
        },
    }
}

/// Reads the words, and does what they ask for.
fn obey<'w, D: Disk, S: Source, K: Sink>(
    alloc: Global,
    words: &'w Texts,
    disk: D,
    input: &mut S,
    out: &mut K,
) -> Obeyed<'w, D>
    ensures told { IsTrue (D.volume disk).tells → IsTrue (S.input input.old).tells → IsTrue (K.output out.old).tells →
        Appends (K.output out.old).held (K.output out.new).held
        (Comes (args_of words.now) (D.volume disk) (S.input input.old).left (D.volume result.disk)
        (Rose (D.count disk) (D.count result.disk))
        (SinkRefuses (Rose (K.count out.old) (K.count out.new)) (K.output out.new).short) (ended result.ended)) }
    ensures cause { EndsFor (args_of words.now) (λ times. RoseTimes times (D.count disk) (D.count result.disk))
        (Rose (S.count input.old) (S.count input.new)) (Rose (K.count out.old) (K.count out.new)) (ended result.ended) }
    ensures notes { IsTrue (D.volume disk).tells → OnOk result.ended (HasNotes (args_of words.now) (notes_told result.notes)) }
    ensures read { IsTrue (S.input input.old).tells → ReadsInput (args_of words.now) (S.input input.old) (S.input input.new) (ended result.ended ≡ None) }
    ensures lasts { Lasts (S.input input.old).tells (S.input input.new).tells (S.count input.old) (S.count input.new) }
    ensures disk_lasts { Lasts (D.volume disk).tells (D.volume result.disk).tells (D.count disk) (D.count result.disk) }
    ensures out_lasts { Lasts (K.output out.old).tells (K.output out.new).tells (K.count out.old) (K.count out.new) }
{
    match read_words(alloc, words) {
        Ok(args) => {
            let Worked {
                disk,
                ended,
                repeated,
            } = work(alloc, &args, disk, input, out);
            Obeyed {
                disk,
                ended,
                notes: Notes {
                    files: args.files,
                    repeated,
                },
            }
        }
        Err(WordsError::Fault(fault)) => Obeyed {
            disk,
            ended: Err(Stop::Words(fault)),
            notes: Notes::new(alloc),
        },
        Err(WordsError::NoMemory) => Obeyed {
            disk,
            ended: Err(Stop::NoMemory),
            notes: Notes::new(alloc),
        },
    }
}

/// The whole program: reads the words, the input and the files, writes the set and the wire bytes, and prints the tree.
/// What out and err hold is what this call appended.
///
/// The words are `[-I PATH]* [-o PATH] [--include_imports] [--include_source_info] [--descriptor_set_in PATH] [--retries N]
/// [--type NAME [--wire PATH] [--json_int64_numbers] [--json_enum_numbers] [--json_proto_names] [--json_defaults]] FILE+`, or `--generate N`.
/// Without `--type` the files are compiled, and their set is written with `-o`. With `--type` the input is read as JSON of a
/// message of that type; the set, with all imports and source information, is written with `-o` and the wire bytes are
/// written with `--wire`, and the message is printed as JSON: canonical, but for what the four flags change. `--generate N` transcodes a tree over N files in
/// memory, and prints the lengths of what comes of it.
///
/// With `--descriptor_set_in` the files come from the descriptor set at its path, and from nowhere else; it is read behind the input and
/// before any file.
///
/// With `--retries N` a path of a file whose opening meets a fault of the disk, or want of memory, is opened again, at most N times. The set is read
/// once, and each write is tried once.
///
/// With status 0 err has a note for each path whose name an earlier path has, which is compiled once.
///
/// A run is a process's work: without `--type`, the memory of the files that were compiled is not given back before the process ends.
pub fn run<D: Disk, S: Source, K: Sink, E: Sink>(
    alloc: Global,
    words: &Texts,
    disk: D,
    input: &mut S,
    out: &mut K,
    err: &mut E,
) -> Ran<D>
    ensures { Runs (record {
      words = words.now;
      disk = record { old = D.volume disk; new = D.volume result.disk; before = D.count disk; after = D.count result.disk };
      input = record { old = S.input input.old; new = S.input input.new; before = S.count input.old; after = S.count input.new };
      out = record { old = K.output out.old; new = K.output out.new; before = K.count out.old; after = K.count out.new };
      err = record { old = E.output err.old; new = E.output err.new; before = E.count err.old; after = E.count err.new };
      status = result.status;
    }) }
{
    let Obeyed { disk, ended, notes } = obey(alloc, words, disk, input, out);
    let status = report(err, &ended, &notes);
    Ran { disk, status }
}
