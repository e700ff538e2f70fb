ghost use Rattle.std.specs.Prelude.{◌≡◌};
ghost use Rattle.std.specs.Option.{option_copied};

use pbx_wire::Text;
use std::marker::Model;

/// What is known of a compiled file beside its record.
#[derive(Drop)]
pub struct FileMetadata {
    name: Text,
    path: Option<Text>,
    is_import: bool,
}

impl Model for FileMetadata {
    ghost use Rattle.protox_file_sources.specs.Metadata.{Metadata};

    ghost Value = { Metadata };

    ghost view = { λ m. record { name = m.name; path = m.path; is_import = m.is_import } };
}

impl FileMetadata {
    /// What is known of a file of this name.
    pub fn new(name: Text, path: Option<Text>, is_import: bool) -> FileMetadata
        ensures { result ≡ record { name = name; path = path; is_import = is_import } }
    {
        FileMetadata {
            name,
            path,
            is_import,
        }
    }

    /// The name that the file is imported by; takes no memory.
    pub fn name(&self) -> &str
        ensures { result.now ≡ self.now.name }
    {
        self.name.as_str()
    }

    /// The path that the file was read from, if it is known; takes no memory.
    pub fn path(&self) -> Option<&str>
        ensures { option_copied result ≡ self.now.path }
    {
        self.path.as_ref().map(|path| path.as_str())
    }

    /// Whether the file is there as an import alone; takes no memory.
    pub fn is_import(&self) -> bool
        ensures { result ≡ self.now.is_import }
    {
        self.is_import
    }

    /// Sets that mark, and nothing else.
    pub fn set_import(&mut self, yes: bool)
        ensures { self.new ≡ record self.old { is_import = yes } }
    {
        self.is_import = yes;
    }
}
