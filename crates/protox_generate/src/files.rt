//! The files of a number.

ghost use Rattle.std.specs.Prelude.{◌≡◌, IfOk, MatchOption, None};
ghost use Rattle.protox_io.specs.Count.{counted};
ghost use Rattle.protox_file_sources.specs.Told.{Absent, told_source};
ghost use Rattle.protox_generate.specs.Sources.{files_to};
ghost use Rattle.protox_generate.specs.Files.{first_source, sources as sources_of};

use crate::sources::{file_name, source};
use pbx_wire::{NoMemory, Text};
use protox_file_error::Error;
use protox_file_sources::{File, FileResolver};
use std::alloc::Global;
use std::marker::Model;

/// The files of a number by their names. None fails to open, and no path is resolved.
#[derive(Drop)]
pub(crate) struct GeneratedFiles {
    // Each name with its source, by number.
    sources: Vec<(Text, Text)>,
}

impl Model for GeneratedFiles {
    ghost use Rattle.std.specs.Prelude.{List, ℕ};

    ghost Value = { List (List ℕ × List ℕ) };

    ghost view = { λ r. r.sources.items };
}

impl GeneratedFiles {
    /// The files up to the number.
    pub(crate) fn new(alloc: Global, number: u16) -> Result<Self, NoMemory>
        ensures { IfOk result (λ r. r ≡ files_to number) }
    {
        let mut sources = Vec::new(alloc);
        for before in 0..number {
            let file = before + 1;
            let name = Text::from_str(alloc, file_name(alloc, file)?.as_str())?;
            let text = Text::from_str(alloc, source(alloc, file)?.as_str())?;
            sources.push((name, text))?;
        }
        Ok(GeneratedFiles { sources })
    }
}

/// The first source under the name.
fn find<'a>(sources: &'a [(Text, Text)], name: &str) -> Option<&'a Text>
    ensures { MatchOption result (first_source sources.now name.now ≡ Absent)
        (λ source. first_source sources.now name.now ≡ told_source source.now None) }
{
    for (stored, source) in sources {
        if stored.as_str() == name {
            return Some(source);
        }
    }
    None
}

impl FileResolver for GeneratedFiles {
    ghost library = { sources_of };

    ghost count = { λ _. counted 0 };

    fn resolve_path(&self, _alloc: Global, _path: &str) -> Result<Option<Text>, NoMemory> {
        Ok(None)
    }

    fn open_file(&mut self, alloc: Global, name: &str) -> Result<File, Error> {
        match find(&self.sources, name) {
            Some(source) => File::from_source(alloc, name, source.as_str()),
            None => Err(Error::file_not_found(alloc, name)),
        }
    }

    fn spent(&self) -> bool {
        false
    }
}
