//! Why a file is not found, not read or not taken.

ghost use Rattle.std.specs.Prelude.{◌≡◌, IfOk, true, false};
ghost use Rattle.std.specs.List.{concat};
ghost use Rattle.std.specs.Option.{option_copied};
ghost use Rattle.protox_file_error.specs.Errors.{of_parse, of_descriptor, of_decode, descriptor_file, IsWhole, UnlessMemory, file_of, is_absence};
ghost use Rattle.protox_file_error.specs.Errors.{is_text_fault, is_reading_fault};
ghost use Rattle.protox_file_error.specs.Lines.{line_of, long_line_of};

use crate::lines;
use pbx_link_definitions::DescriptorError;
use pbx_parse::ParseError;
use pbx_wire::{DecodeError, NoMemory, Text};
use std::alloc::Global;
use std::marker::Model;

/// What an error is.
#[derive(Debug, Drop, thiserror::Error)]
pub enum ErrorKind {
    /// A source is not in the language.
    #[error("{0}")]
    Parse(ParseError),
    /// A file does not keep a rule of linking, or does not decode.
    #[error("{0}")]
    Check(DescriptorError),
    /// Reading failed.
    #[error("error opening file '{path}': {fault}")]
    OpenFile {
        /// The name of the file.
        name: Text,
        /// The path that was read.
        path: Text,
        /// What the disk said.
        fault: Text,
    },
    /// A source has more than 2,147,483,647 bytes.
    #[error("file '{name}' is too large")]
    FileTooLarge {
        /// The name of the file.
        name: Text,
    },
    /// A source is not UTF-8.
    #[error("file '{name}' is not valid utf-8")]
    FileInvalidUtf8 {
        /// The name of the file.
        name: Text,
    },
    /// No file has the name.
    #[error("file '{name}' not found")]
    FileNotFound {
        /// The name of the file.
        name: Text,
    },
    /// No file has the name of an import.
    #[error("import '{name}' of file '{file}' not found")]
    ImportNotFound {
        /// The name of the file that imports it.
        file: Text,
        /// Which of its imports it is, from 0.
        index: u32,
        /// The line and the column of the import, both from 1, if they are known.
        place: Option<(u32, u32)>,
        /// The name of the import.
        name: Text,
    },
    /// A file imports itself, maybe through others.
    #[error("import cycle detected: {cycle}")]
    CircularImport {
        /// The name of the file that is imported again.
        name: Text,
        /// The names of the files from the first to that import, with ` -> ` between them.
        cycle: Text,
    },
    /// A path stands in no include folder.
    #[error("path '{path}' stands in no include folder")]
    FileNotIncluded {
        /// The path.
        path: Text,
    },
    /// A file of the same name stands in an earlier include folder.
    #[error("path '{path}' is shadowed by '{shadow}' of an earlier include folder")]
    FileShadowed {
        /// The name of the file.
        name: Text,
        /// The path that was asked for.
        path: Text,
        /// The path of the file in the earlier folder.
        shadow: Text,
    },
    /// A file lists an import twice.
    #[error("import '{name}' of file '{file}' was listed twice")]
    DuplicateImport {
        /// The name of the file that imports it.
        file: Text,
        /// Which of its imports is the later one, from 0.
        index: u32,
        /// The line and the column of the later one, both from 1, if they are known.
        place: Option<(u32, u32)>,
        /// The name of the import.
        name: Text,
    },
    /// What a resolver says of its own.
    #[error("{text}")]
    Custom {
        /// The text.
        text: Text,
        /// Whether reading failed.
        is_io: bool,
    },
    /// A resolver gave a file of another name.
    #[error("file '{asked}' declares the name '{declared}'")]
    NameMismatch {
        /// The name that was asked for.
        asked: Text,
        /// The name that the file declares, which may be empty.
        declared: Text,
    },
    /// There are too many files.
    #[error("more than {limit} files")]
    FileLimit {
        /// How many there may be.
        limit: u32,
    },
    /// A file nests more than 100 levels, or has options that do not decode, so that no reader would take its set.
    #[error("file '{file}' does not decode under the built-in schema")]
    Undecodable {
        /// The name of the file.
        file: Text,
    },
    /// Memory ran out.
    #[error("out of memory")]
    NoMemory,
    /// The name of an import has a root or a `..` component, so that it leaves the include folders.
    #[error("import '{name}' leaves the include folders")]
    ImportEscapes {
        /// The name of the file that imports it.
        file: Text,
        /// Which of its imports it is, from 0.
        index: u32,
        /// The line and the column of the import, both from 1, if they are known.
        place: Option<(u32, u32)>,
        /// The name of the import.
        name: Text,
    },
}

/// Why a file is not found, not read or not taken. No want of memory stands inside of another error.
#[derive(Debug, Drop, thiserror::Error)]
#[error("{kind}")]
pub struct Error {
    kind: ErrorKind,
}

impl Model for Error {
    ghost use Rattle.protox_file_error.specs.declared.error.ErrorKind.{ErrorKind};
    ghost use Rattle.protox_file_error.specs.Errors.{IsWhole};

    ghost Value = { ErrorKind };

    ghost view = { λ e. e.kind };

    ghost invariant = { λ e. IsWhole e.kind };
}

impl Error {
    /// An error of a resolver's own that is no fault of reading.
    pub fn new(alloc: Global, text: &str) -> Error
        ensures { UnlessMemory (ErrorKind.Custom text.now false) result }
    {
        match Text::from_str(alloc, text) {
            Ok(text) => Error {
                kind: ErrorKind::Custom { text, is_io: false },
            },
            Err(_) => Error {
                kind: ErrorKind::NoMemory,
            },
        }
    }

    /// A fault of reading of a resolver's own.
    pub fn from_io(alloc: Global, text: &str) -> Error
        ensures { UnlessMemory (ErrorKind.Custom text.now true) result }
    {
        match Text::from_str(alloc, text) {
            Ok(text) => Error {
                kind: ErrorKind::Custom { text, is_io: true },
            },
            Err(_) => Error {
                kind: ErrorKind::NoMemory,
            },
        }
    }

    /// The error that no file has the name.
    pub fn file_not_found(alloc: Global, name: &str) -> Error
        ensures { UnlessMemory (ErrorKind.FileNotFound name.now) result }
    {
        match Text::from_str(alloc, name) {
            Ok(name) => Error {
                kind: ErrorKind::FileNotFound { name },
            },
            Err(_) => Error {
                kind: ErrorKind::NoMemory,
            },
        }
    }

    /// The error of a kind, inside of which no want of memory stands.
    pub fn from_kind(kind: ErrorKind) -> Error
        requires { IsWhole kind }
        ensures { result ≡ kind }
    {
        Error { kind }
    }

    /// What the error is; takes no memory.
    pub fn kind(&self) -> &ErrorKind
        ensures same { result.now ≡ self.now }
        // Inside of it no want of memory stands.
        ensures whole { IsWhole self.now }
    {
        &self.kind
    }

    /// The name of the file that the error names, which of an import is the file that imports it; takes no memory.
    pub fn file(&self) -> Option<&str>
        ensures { option_copied result ≡ file_of self.now }
    {
        match &self.kind {
            ErrorKind::Parse(error) => error.file(),
            ErrorKind::Check(error) => descriptor_file(error),
            ErrorKind::OpenFile { name, .. } => Some(name.as_str()),
            ErrorKind::FileTooLarge { name } => Some(name.as_str()),
            ErrorKind::FileInvalidUtf8 { name } => Some(name.as_str()),
            ErrorKind::FileNotFound { name } => Some(name.as_str()),
            ErrorKind::ImportNotFound { file, .. } => Some(file.as_str()),
            ErrorKind::CircularImport { name, .. } => Some(name.as_str()),
            ErrorKind::FileNotIncluded { .. } => None,
            ErrorKind::FileShadowed { name, .. } => Some(name.as_str()),
            ErrorKind::DuplicateImport { file, .. } => Some(file.as_str()),
            ErrorKind::Custom { .. } => None,
            ErrorKind::NameMismatch { asked, .. } => Some(asked.as_str()),
            ErrorKind::FileLimit { .. } => None,
            ErrorKind::Undecodable { file } => Some(file.as_str()),
            ErrorKind::NoMemory => None,
            ErrorKind::ImportEscapes { file, .. } => Some(file.as_str()),
        }
    }

    /// Whether a file was not found: of its name, as an import, or at a path; takes no memory.
    pub fn is_file_not_found(&self) -> bool
        ensures { result ≡ is_absence self.now }
    {
        matches!(
            self.kind,
            ErrorKind::FileNotFound { .. }
                | ErrorKind::ImportNotFound { .. }
                | ErrorKind::FileNotIncluded { .. }
        )
    }

    /// Whether the text of a file is at fault; takes no memory.
    pub fn is_parse(&self) -> bool
        ensures { result ≡ is_text_fault self.now }
    {
        matches!(
            self.kind,
            ErrorKind::Parse(_) | ErrorKind::FileTooLarge { .. } | ErrorKind::FileInvalidUtf8 { .. }
        )
    }

    /// Whether reading is at fault; takes no memory.
    pub fn is_io(&self) -> bool
        ensures { result ≡ is_reading_fault self.now }
    {
        match &self.kind {
            ErrorKind::OpenFile { .. } => true,
            ErrorKind::Custom { is_io, .. } => *is_io,
            _ => false,
        }
    }

    /// What is wrong, in one line where no name in it has a line feed. `NoMemory` comes for want of memory alone.
    pub fn line(&self, alloc: Global) -> Result<Text, NoMemory>
        ensures { IfOk result (λ line. line ≡ concat (line_of self.now)) }
    {
        lines::line(alloc, &self.kind)
    }

    /// What is wrong and where, in one line where no name in it has a line feed. `NoMemory` comes for want of memory alone.
    pub fn long_line(&self, alloc: Global) -> Result<Text, NoMemory>
        ensures { IfOk result (λ line. line ≡ concat (long_line_of self.now)) }
    {
        lines::long_line(alloc, &self.kind)
    }
}

impl From<NoMemory> for Error {
    ghost use Rattle.std.specs.Prelude.{◌≡◌};
    ghost use Rattle.protox_file_error.specs.declared.error.ErrorKind.{ErrorKind};

    ghost from_gives = { λ _ e. e ≡ ErrorKind.NoMemory };

    fn from(_refused: NoMemory) -> Error {
        Error {
            kind: ErrorKind::NoMemory,
        }
    }
}

fn descriptor_file(error: &DescriptorError) -> Option<&str>
    ensures { option_copied result ≡ descriptor_file error.now }
{
    match error {
        DescriptorError::Rule { file, .. } => Some(file.as_str()),
        DescriptorError::Decode(_) => None,
        DescriptorError::NoMemory => None,
    }
}

impl From<ParseError> for Error {
    ghost from_gives = { λ parse e. e ≡ of_parse parse };

    /// `NoMemory` exactly for want of memory, and else `Parse`.
    fn from(error: ParseError) -> Error {
        match error {
            ParseError::Syntax {
                file,
                line,
                column,
                expected,
                found,
            } => Error {
                kind: ErrorKind::Parse(ParseError::Syntax {
                    file,
                    line,
                    column,
                    expected,
                    found,
                }),
            },
            ParseError::NoMemory => Error {
                kind: ErrorKind::NoMemory,
            },
        }
    }
}

impl From<DescriptorError> for Error {
    ghost from_gives = { λ descriptor e. e ≡ of_descriptor descriptor };

    /// `NoMemory` exactly for want of memory, also inside of `Decode`, and else `Check`.
    fn from(error: DescriptorError) -> Error {
        match error {
            DescriptorError::Rule { file, place, rule } => Error {
                kind: ErrorKind::Check(DescriptorError::Rule { file, place, rule }),
            },
            DescriptorError::Decode(error) => Error {
                kind: decoding(error),
            },
            DescriptorError::NoMemory => Error {
                kind: ErrorKind::NoMemory,
            },
        }
    }
}

/// The kind of an error of decoding.
fn decoding(error: DecodeError) -> ErrorKind
    ensures kind { result ≡ of_decode error }
    ensures whole { IsWhole result }
{
    match error {
        DecodeError::NoMemory => ErrorKind::NoMemory,
        _ => ErrorKind::Check(DescriptorError::Decode(error)),
    }
}
