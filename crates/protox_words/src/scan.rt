ghost use Rattle.std.specs.Prelude.{◌≡◌, option_map};
ghost use Rattle.protox_words.specs.Words.{begins_with_dash as begins_with_dash_of, set as set_of, behind_option, behind_dash, step as step_of};
ghost use Rattle.protox_words.specs.Words.{with_file, judged, judged_scan};
ghost use Rattle.protox_words.specs.Told.{args_told, fault_told, given_told, scan_at, scan_of, Leads};

use crate::args::{Args, add};
use crate::count::{count_of, retries_in};
use crate::fault::{WordFault, WordsError};
use crate::options::{Flag, Given, option_in};
use std::alloc::Global;

/// Where the reading of words stands.
#[derive(Clone, Copy)]
pub(crate) enum Place<'w> {
    /// Between options.
    Options,
    /// Before the value of an option as it is written.
    Value { flag: Flag, written: &'w str },
    /// Behind `--`.
    Files,
}

fn begins_with_dash(word: &str) -> bool
    ensures { result ≡ begins_with_dash_of word.now }
{
    match word.as_bytes() {
        [] => false,
        [first, ..] => *first == b'-',
    }
}

/// Takes an option with its value, which an option without one does not look at.
fn set<'w>(
    alloc: Global,
    args: &mut Args<'w>,
    flag: Flag,
    written: &'w str,
    value: &'w str,
) -> Result<Place<'w>, WordsError<'w>>
    ensures { Leads result args.new (set_of flag written.now value.now (args_told args.old)) }
{
    match flag {
        Flag::Include => add(alloc, &mut args.includes, value)?,
        Flag::Output => args.output = Some(value),
        Flag::IncludeImports => args.include_imports = true,
        Flag::IncludeSourceInfo => args.include_source_info = true,
        Flag::DescriptorSetIn => args.descriptor_set_in = Some(value),
        Flag::Retries => match retries_in(value) {
            Some(retries) => args.retries = Some(retries),
            None => return Err(WordsError::Fault(WordFault::NeedsRetries { option: written })),
        },
        Flag::TypeName => args.type_name = Some(value),
        Flag::Wire => args.wire = Some(value),
        Flag::Json(flag) => args.json.add(flag, written),
        Flag::Generate => match count_of(value) {
            Some(count) => args.generate = Some(count),
            None => return Err(WordsError::Fault(WordFault::NeedsNumber { option: written })),
        },
    }
    Ok(Place::Options)
}

/// Reads an option, whose value may be the next word.
fn read_option<'w>(
    alloc: Global,
    args: &mut Args<'w>,
    given: Given<'w>,
) -> Result<Place<'w>, WordsError<'w>>
    ensures { Leads result args.new (behind_option (given_told given.entry) (args_told args.old)) }
{
    let Given {
        flag,
        written,
        value,
    } = given;
    if flag.is_given(args) {
        return Err(WordsError::Fault(WordFault::Twice { option: written }));
    }
    let value = match (value, flag.takes_value()) {
        (Some(value), true) => value,
        (None, true) => return Ok(Place::Value { flag, written }),
        (None, false) => "",
        (Some(_), false) => {
            return Err(WordsError::Fault(WordFault::TakesNoValue { option: written }));
        }
    };
    set(alloc, args, flag, written, value)
}

/// Reads a word that begins with `-` and stands between options.
fn read_dashed<'w>(
    alloc: Global,
    args: &mut Args<'w>,
    word: &'w str,
) -> Result<Place<'w>, WordsError<'w>>
    ensures { Leads result args.new (behind_dash word.now (args_told args.old)) }
{
    if word == "--" {
        return Ok(Place::Files);
    }
    let Some(given) = option_in(word) else {
        return Err(WordsError::Fault(WordFault::Unknown { word }));
    };
    read_option(alloc, args, given)
}

/// Adds a file, and stays in the place.
fn read_file<'w>(
    alloc: Global,
    args: &mut Args<'w>,
    place: Place<'w>,
    word: &str,
) -> Result<Place<'w>, WordsError<'w>>
    ensures { Leads result args.new (scan_at place.entry (with_file word.now (args_told args.old))) }
{
    add(alloc, &mut args.files, word)?;
    Ok(place)
}

/// Reads one more word, and tells where the reading stands behind it.
pub(crate) fn step<'w>(
    alloc: Global,
    args: &mut Args<'w>,
    place: Place<'w>,
    word: &'w str,
) -> Result<Place<'w>, WordsError<'w>>
    ensures { Leads result args.new (step_of (scan_of place.entry args.old) word.now) }
{
    match place {
        Place::Options if begins_with_dash(word) => read_dashed(alloc, args, word),
        Place::Value { written, .. } if begins_with_dash(word) => {
            Err(WordsError::Fault(WordFault::NeedsValue { option: written }))
        }
        Place::Value { flag, written } => set(alloc, args, flag, written, word),
        Place::Options | Place::Files => read_file(alloc, args, place, word),
    }
}

/// Tells the fault of the words behind the last of them, if there is one.
pub(crate) fn judge<'w>(args: &Args<'w>, place: Place<'w>) -> Option<WordFault<'w>>
    ensures { judged (args_told args.now) (option_map fault_told result) ≡ judged_scan (scan_of place.entry args.now) }
{
    match place {
        Place::Value { written, .. } => Some(WordFault::NeedsValue { option: written }),
        _ => args.fault_in(),
    }
}
