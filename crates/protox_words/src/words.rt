ghost use Rattle.std.specs.Prelude.{◌≡◌, IfOk, IfErr};
ghost use Rattle.protox_words.specs.Words.{args_of, nothing};
ghost use Rattle.protox_words.specs.Told.{args_told, Judges, IsCause};

use crate::args::Args;
use crate::fault::WordsError;
use crate::scan::{Place, judge, step};
use pbx_wire::Texts;
use std::alloc::Global;

/// Reads the words into arguments that are those of no words.
fn read_into<'w>(alloc: Global, args: &mut Args<'w>, words: &'w Texts) -> Result<(), WordsError<'w>>
    ensures { args_told args.old ≡ nothing → Judges result args.new (args_of words.now) }
{
    let mut place = Place::Options;
    for word in words.as_slice() {
        match step(alloc, args, place, word.as_str()) {
            Ok(next) => place = next,
            Err(error) => return Err(error),
        }
    }
    match judge(args, place) {
        Some(fault) => Err(WordsError::Fault(fault)),
        None => Ok(()),
    }
}

/// Reads the words of a command line, without the program's own name.
///
/// The first faulty word from the left is the one that is told, and behind it the faults of all words together.
pub fn read_words<'w>(alloc: Global, words: &'w Texts) -> Result<Args<'w>, WordsError<'w>>
    ensures ok { IfOk result (λ args. args_of words.now ≡ Ok (args_told args)) }
    ensures err { IfErr result (IsCause (args_of words.now)) }
{
    let mut args = Args::new(alloc);
    match read_into(alloc, &mut args, words) {
        Ok(()) => Ok(args),
        Err(error) => {
            drop(args);
            Err(error)
        }
    }
}
