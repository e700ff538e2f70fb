//! Questions about paths, disks, streams, files, their errors and the walk over their imports.
//!
//! Of most questions the fields are steps, in pairs: what is done, and what it is done with.

mod built_in;
mod compiled;
mod disks;
mod errors;
mod files;
mod located;
mod orders;
mod over;
mod paths;
mod resolvers;
mod sets;
mod step;
mod streams;
mod told;
mod untold;
mod walk;

use crate::stop::{Done, Stop};
use std::alloc::Global;
use std::rt::Files;
use test_rows::Row;
use told::Told;

/// Answers a question about paths, errors, single files or streams.
fn tell_alone(alloc: Global, row: &Row, word: &str, told: &mut Told) -> Done {
    match word {
        "name of path" => paths::name(alloc, row, told),
        "equal paths" => paths::equal(row, told),
        "path below" => paths::below(row, told),
        "path of name" => paths::joined(alloc, row, told),
        "line" => errors::line(alloc, row, told),
        "long line" => errors::long_line(alloc, row, told),
        "file and sort" => errors::file_and_sort(alloc, row, told),
        "file of source" => files::of_source(alloc, row, told),
        "broken rule" => located::broken_rule(alloc, row, told),
        "file of record" => files::of_record(alloc, row, told),
        "record into file" => files::converted(alloc, row, told),
        "metadata" => files::metadata(alloc, row, told),
        "built-in file" => built_in::open(alloc, row, told),
        "source" => streams::source(alloc, row, told),
        "source to its end" => streams::source_to_end(alloc, row, told),
        "sink" => streams::sink(alloc, row, told),
        "broken streams" => streams::over_broken(told),
        _ => return Err(Stop::NoSuchWord),
    }
    Ok(())
}

/// Answers a question about the disk and the streams of the process, or one that needs neither.
fn tell_of_process<R: Files + AllocGlobal>(rt: &R, row: &Row, word: &str, told: &mut Told) -> Done {
    match word {
        "real disk" => disks::real(rt, row, told),
        "real streams" => streams::real(rt, row, told),
        _ => return tell_alone(rt.alloc(), row, word, told),
    }
    Ok(())
}

/// Answers a row's question.
fn tell<R: Files + AllocGlobal>(rt: &R, row: &Row, word: &str, told: &mut Told) -> Done {
    match word {
        "walk" => walk::of_memory(rt.alloc(), row, told),
        "walk over one" => untold::walk_over_one(rt.alloc(), row, told),
        "walk over none" => untold::walk_over_none(rt.alloc(), row, told),
        "walk over a script" => untold::walk_over_script(rt.alloc(), row, told),
        "orders" => orders::of_paths(rt.alloc(), row, told),
        "resolver" => resolvers::of_memory(rt.alloc(), row, told),
        "walk over folders" => walk::over_folders(rt.alloc(), row, told),
        "walk over a set" => walk::over_set(rt.alloc(), row, told),
        "compiled at once" => compiled::at_once(rt.alloc(), row, told),
        "folder" => resolvers::of_folder(rt.alloc(), row, told),
        "folders" => over::of_folders(rt.alloc(), row, told),
        "chain" => over::of_chain(rt.alloc(), row, told),
        "set" => over::of_set(rt.alloc(), row, told),
        "disk" => disks::of_memory(rt.alloc(), row, told),
        _ => return tell_of_process(rt, row, word, told),
    }
    Ok(())
}

/// What the word asks of files and what they come from.
pub(crate) fn answer<R: Files + AllocGlobal>(
    rt: &R,
    row: &Row,
    word: &str,
) -> Result<String, Stop> {
    let mut told = Told::new(rt.alloc());
    tell(rt, row, word, &mut told)?;
    told.all()
}
