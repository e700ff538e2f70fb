//! What err is told of a run: why it was stopped, or which paths were given again.

ghost use Rattle.std.specs.Prelude.{◌≡◌, ◌∷◌, [], IfErr, IsTrue, codes, get_or};
ghost use Rattle.protox_io.specs.Count.{Later, Rose};
ghost use Rattle.protox_io.specs.Sink.{Appends, Prints, RefusesFor, Says, SinkRefuses};
ghost use Rattle.protox_words.specs.Words.{fault_pieces};
ghost use Rattle.protox_words.specs.Told.{fault_told};
ghost use Rattle.protox_run.specs.Outcome.{error_line, note_line, notes_at, refusal_line};
ghost use Rattle.protox_run.specs.Stops.{object_line};
ghost use Rattle.protox_run.specs.Told.{object_told, stop_told, ended as ended_told, line_of, notes_told, status_of, stop_line, stop_status, Lasts};

use crate::stop::{Notes, Object, Refusal, Stop};
use pbx_wire::Text;
use protox_io::{Sink, SinkError, write_line};
use protox_words::WordFault;

/// Writes `error: `, the line, with invisible characters as escapes, and a line feed. A refused write ends it; it takes no memory.
#[tactic(auto, unfolding(crate::specs::Outcome::error_line))]
pub fn say<E: Sink>(err: &mut E, line: &str)
    ensures said { Says (E.output err.old).tells (SinkRefuses (Rose (E.count err.old) (E.count err.new)) (E.output err.new).short) (E.output err.old).held
        (E.output err.new).held (error_line (line.now ∷ [])) }
    ensures lasts { Lasts (E.output err.old).tells (E.output err.new).tells (E.count err.old) (E.count err.new) }
{
    let _ = write_line(err, &["error: ", line]);
}

/// Writes the line of an error that has a text between two others; a refused write ends it.
#[tactic(auto, unfolding(crate::specs::Outcome::error_line))]
fn say_between<E: Sink>(err: &mut E, before: &str, text: &str, behind: &str)
    ensures said { Says (E.output err.old).tells (SinkRefuses (Rose (E.count err.old) (E.count err.new)) (E.output err.new).short) (E.output err.old).held
        (E.output err.new).held (error_line (before.now ∷ text.now ∷ behind.now ∷ [])) }
    ensures lasts { Lasts (E.output err.old).tells (E.output err.new).tells (E.count err.old) (E.count err.new) }
{
    let _ = write_line(err, &["error: ", before, text, behind]);
}

/// Writes the line of an error that begins with a text; a refused write ends it.
#[tactic(auto, unfolding(crate::specs::Outcome::error_line))]
fn say_behind<E: Sink>(err: &mut E, text: &str, behind: &str)
    ensures said { Says (E.output err.old).tells (SinkRefuses (Rose (E.count err.old) (E.count err.new)) (E.output err.new).short) (E.output err.old).held
        (E.output err.new).held (error_line (text.now ∷ behind.now ∷ [])) }
    ensures lasts { Lasts (E.output err.old).tells (E.output err.new).tells (E.count err.old) (E.count err.new) }
{
    let _ = write_line(err, &["error: ", text, behind]);
}

fn say_fault<E: Sink>(err: &mut E, fault: &WordFault<'_>)
    ensures said { Says (E.output err.old).tells (SinkRefuses (Rose (E.count err.old) (E.count err.new)) (E.output err.new).short) (E.output err.old).held
        (E.output err.new).held (error_line (fault_pieces (fault_told fault.now))) }
    ensures lasts { Lasts (E.output err.old).tells (E.output err.new).tells (E.count err.old) (E.count err.new) }
{
    match *fault {
        WordFault::Unknown { word } => say_between(err, "unknown option '", word, "'"),
        WordFault::Twice { option } => say_between(err, "option '", option, "' given twice"),
        WordFault::NeedsValue { option } => say_between(err, "option '", option, "' needs a value"),
        WordFault::TakesNoValue { option } => {
            say_between(err, "option '", option, "' takes no value")
        }
        WordFault::NeedsNumber { option } => say_between(
            err,
            "option '",
            option,
            "' needs a number from 1 to 2000",
        ),
        WordFault::NeedsRetries { option } => say_between(
            err,
            "option '",
            option,
            "' needs a number from 0 to 1000",
        ),
        WordFault::NotAlone => say(err, "--generate stands alone"),
        WordFault::NoFile => say(err, "no file given"),
        WordFault::NeedsType { option } => say_behind(err, option, " needs --type"),
        WordFault::ExcludesInclude => say(err, "--descriptor_set_in excludes -I"),
    }
}

fn say_refusal<E: Sink>(err: &mut E, refusal: &Refusal)
    ensures said { Says (E.output err.old).tells (SinkRefuses (Rose (E.count err.old) (E.count err.new)) (E.output err.new).short) (E.output err.old).held
        (E.output err.new).held (error_line (refusal_line refusal.now)) }
    ensures lasts { Lasts (E.output err.old).tells (E.output err.new).tells (E.count err.old) (E.count err.new) }
{
    match refusal {
        Refusal::TooLong => say(err, "input is longer than 1073741824 bytes"),
        Refusal::NotJson => say(err, "input is not JSON"),
        Refusal::Top(line) => say(err, line.as_str()),
    }
}

fn say_object<E: Sink>(err: &mut E, object: &Object<'_>)
    ensures said { Says (E.output err.old).tells (SinkRefuses (Rose (E.count err.old) (E.count err.new)) (E.output err.new).short) (E.output err.old).held
        (E.output err.new).held (error_line (object_line (object_told object.now))) }
    ensures lasts { Lasts (E.output err.old).tells (E.output err.new).tells (E.count err.old) (E.count err.new) }
{
    match object {
        Object::Input => say(err, "reading input failed"),
        Object::Reading(line) => say(err, line.as_str()),
        Object::Path(path) => say_between(err, "writing '", path, "' failed"),
        Object::Output => say(err, "writing output failed"),
    }
}

fn say_stop<E: Sink>(err: &mut E, stop: &Stop<'_>)
    ensures said { Says (E.output err.old).tells (SinkRefuses (Rose (E.count err.old) (E.count err.new)) (E.output err.new).short) (E.output err.old).held
        (E.output err.new).held (error_line (stop_line (stop_told stop.now))) }
    ensures lasts { Lasts (E.output err.old).tells (E.output err.new).tells (E.count err.old) (E.count err.new) }
{
    match stop {
        Stop::Words(fault) => say_fault(err, fault),
        Stop::Refused(refusal) => say_refusal(err, refusal),
        Stop::Broken(object) => say_object(err, object),
        Stop::NoMemory => say(err, "out of memory"),
    }
}

fn status(stop: &Stop<'_>) -> u8
    ensures { result ≡ stop_status (stop_told stop.now) }
{
    match stop {
        Stop::Words(_) => 2,
        Stop::Refused(_) => 1,
        Stop::Broken(_) => 3,
        Stop::NoMemory => 4,
    }
}

/// Writes the note of the path at the index.
#[tactic(auto, unfolding(crate::specs::Outcome::note_line))]
fn write_note<E: Sink>(err: &mut E, files: &[Text], index: u64) -> Result<(), SinkError>
    ensures told { IsTrue (E.output err.old).tells →
        Appends (E.output err.old).held (E.output err.new).held (Prints (note_line (get_or files.now index [])) result) }
    ensures cause { IfErr result (RefusesFor (Rose (E.count err.old) (E.count err.new)) (IsTrue (E.output err.new).short)) }
    ensures later { Later (E.count err.old) (E.count err.new) }
    ensures keeps_tells { (E.output err.new).tells ≡ (E.output err.old).tells }
{
    let path = match files.get(index as usize) {
        Some(path) => path.as_str(),
        None => "",
    };
    write_line(err, &["note: path '", path, "' was given twice"])
}

/// Writes the notes, unless a write is refused; takes no memory.
fn write_notes<E: Sink>(err: &mut E, notes: &Notes) -> Result<(), SinkError>
    ensures told { IsTrue (E.output err.old).tells →
        Appends (E.output err.old).held (E.output err.new).held (Prints (notes_at notes.now.files notes.now.repeated) result) }
    ensures cause { IfErr result (RefusesFor (Rose (E.count err.old) (E.count err.new)) (IsTrue (E.output err.new).short)) }
    ensures later { Later (E.count err.old) (E.count err.new) }
    ensures keeps_tells { (E.output err.new).tells ≡ (E.output err.old).tells }
{
    let files = notes.files.as_slice();
    for index in notes.repeated.as_slice() {
        match write_note(err, files, *index) {
            Ok(()) => {}
            Err(error) => return Err(error),
        }
    }
    Ok(())
}

/// Says which paths were given again; a refused write ends it.
fn say_notes<E: Sink>(err: &mut E, notes: &Notes)
    ensures said { Says (E.output err.old).tells (SinkRefuses (Rose (E.count err.old) (E.count err.new)) (E.output err.new).short) (E.output err.old).held
        (E.output err.new).held (notes_at notes.now.files notes.now.repeated) }
    ensures lasts { Lasts (E.output err.old).tells (E.output err.new).tells (E.count err.old) (E.count err.new) }
{
    let _ = write_notes(err, notes);
}

/// Says on err which paths were given again, or why the run was stopped, and gives its status.
pub(crate) fn report<E: Sink>(err: &mut E, ended: &Result<(), Stop<'_>>, notes: &Notes) -> u8
    ensures status { result ≡ status_of (ended_told ended.now) }
    ensures said { Says (E.output err.old).tells (SinkRefuses (Rose (E.count err.old) (E.count err.new)) (E.output err.new).short)
        (E.output err.old).held (E.output err.new).held (line_of (notes_told notes.now) (ended_told ended.now)) }
    ensures lasts { Lasts (E.output err.old).tells (E.output err.new).tells (E.count err.old) (E.count err.new) }
{
    match ended {
        Ok(()) => {
            say_notes(err, notes);
            0
        }
        Err(stop) => {
            say_stop(err, stop);
            status(stop)
        }
    }
}
