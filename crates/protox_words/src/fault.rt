ghost use Rattle.std.specs.Prelude.{◌≡◌, ◌∷◌, [], IfOk};
ghost use Rattle.std.specs.List.{concat};
ghost use Rattle.protox_words.specs.Words.{fault_line};
ghost use Rattle.protox_words.specs.Told.{fault_told};

use pbx_wire::{NoMemory, Text};
use std::alloc::Global;

/// Why words are refused. An option is named as it is written, without a value that is attached to it.
#[derive(Clone, Copy, Debug)]
pub enum WordFault<'w> {
    /// A word is no option, and begins with `-` before `--`.
    Unknown {
        /// The whole word.
        word: &'w str,
    },
    /// An option other than `-I` was given already, maybe in another spelling.
    Twice {
        /// The option.
        option: &'w str,
    },
    /// An option has no value: the words end behind it, or the next one begins with `-`.
    NeedsValue {
        /// The option.
        option: &'w str,
    },
    /// A value is attached to an option that takes none.
    TakesNoValue {
        /// The option.
        option: &'w str,
    },
    /// The value of an option is no number from 1 to 2000, or is written otherwise than by its digits.
    NeedsNumber {
        /// The option.
        option: &'w str,
    },
    /// The value of an option is no number from 0 to 1000, or is written otherwise than by its digits.
    NeedsRetries {
        /// The option.
        option: &'w str,
    },
    /// Another option, or a file, stands beside `--generate`.
    NotAlone,
    /// There is no file.
    NoFile,
    /// There is `--wire`, or a flag of the JSON, without `--type`.
    NeedsType {
        /// The option.
        option: &'w str,
    },
    /// A folder stands beside `--descriptor_set_in`.
    ExcludesInclude,
}

impl WordFault<'_> {
    /// What is said of the fault, without a line feed. The only error is want of memory.
    pub fn line(&self, alloc: Global) -> Result<Text, NoMemory>
        ensures { IfOk result (λ line. line ≡ fault_line (fault_told self.now)) }
    {
        match *self {
            WordFault::Unknown { word } => between(alloc, "unknown option '", word, "'"),
            WordFault::Twice { option } => between(alloc, "option '", option, "' given twice"),
            WordFault::NeedsValue { option } => between(
                alloc,
                "option '",
                option,
                "' needs a value",
            ),
            WordFault::TakesNoValue { option } => {
                between(alloc, "option '", option, "' takes no value")
            }
            WordFault::NeedsNumber { option } => {
                between(alloc, "option '", option, "' needs a number from 1 to 2000")
            }
            WordFault::NeedsRetries { option } => {
                between(alloc, "option '", option, "' needs a number from 0 to 1000")
            }
            WordFault::NotAlone => Text::joined(alloc, &["--generate stands alone"]),
            WordFault::NoFile => Text::joined(alloc, &["no file given"]),
            WordFault::NeedsType { option } => Text::joined(alloc, &[option, " needs --type"]),
            WordFault::ExcludesInclude => {
                Text::joined(alloc, &["--descriptor_set_in excludes -I"])
            }
        }
    }
}

fn between(alloc: Global, before: &str, word: &str, behind: &str) -> Result<Text, NoMemory>
    ensures { IfOk result (λ line. line ≡ concat (before.now ∷ word.now ∷ behind.now ∷ [])) }
{
    Text::joined(alloc, &[before, word, behind])
}

/// Why there are no arguments.
#[derive(Clone, Copy, Debug)]
pub enum WordsError<'w> {
    /// The words are refused.
    Fault(WordFault<'w>),
    /// Memory ran out.
    NoMemory,
}

impl From<NoMemory> for WordsError<'_> {
    ghost use Rattle.protox_words.specs.declared.fault.WordsError.TheVariants.{NoMemory as OutOfMemory};

    ghost from_gives = { λ _ e. e ≡ OutOfMemory };

    fn from(_refused: NoMemory) -> Self {
        WordsError::NoMemory
    }
}
