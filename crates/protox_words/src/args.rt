ghost use Rattle.std.specs.Prelude.{◌≡◌, ◌++◌, ◌∷◌, [], IfOk, OnOk, option_map};
ghost use Rattle.std.specs.Option.{option_copied};
ghost use Rattle.protox_words.specs.Words.{nothing, folders as folders_of, folders_among, retries_of};
ghost use Rattle.protox_words.specs.Words.{fault_in as fault_in_of, is_alone as is_alone_of, flag_without_type};
ghost use Rattle.protox_words.specs.Told.{args_told, fault_told};

use crate::fault::WordFault;
use crate::json::JsonFlags;
use pbx_wire::{List, NoMemory, Text, Texts};
use std::alloc::Global;

/// What the words of a command line ask for.
///
/// The lists are copies, as a compiler takes them; the other texts are those of the words.
#[derive(Drop)]
pub struct Args<'w> {
    /// The folders of `-I`, in their order.
    pub includes: Texts,
    /// The path that the set is written to.
    pub output: Option<&'w str>,
    /// Whether the set has the files that others import.
    pub include_imports: bool,
    /// Whether the set keeps the places of what it declares.
    pub include_source_info: bool,
    /// The path of the set that the files come from, in place of folders.
    pub descriptor_set_in: Option<&'w str>,
    /// How often a path is opened again where a fault of the disk, or want of memory, ended its opening, from 0 to 1000.
    pub retries: Option<u16>,
    /// The name of the type of a message on the input.
    pub type_name: Option<&'w str>,
    /// The path that the wire bytes of the message are written to.
    pub wire: Option<&'w str>,
    /// How the message is written as JSON.
    pub json: JsonFlags<'w>,
    /// The number of the schema that is to be generated, from 1 to 2000.
    pub generate: Option<u16>,
    /// The files, in their order.
    pub files: Texts,
}

impl<'w> Args<'w> {
    /// What no words ask for.
    pub(crate) fn new(alloc: Global) -> Self
        ensures { args_told result ≡ nothing }
    {
        Args {
            includes: List::new(alloc),
            output: None,
            include_imports: false,
            include_source_info: false,
            descriptor_set_in: None,
            retries: None,
            type_name: None,
            wire: None,
            json: JsonFlags::new(),
            generate: None,
            files: List::new(alloc),
        }
    }

    /// The folders that files are read from: those of `-I`, or `.` where there are none. The only error is want of memory.
    pub fn folders(&self, alloc: Global) -> Result<Texts, NoMemory>
        ensures { IfOk result (λ folders. folders ≡ folders_of (args_told self.now)) }
    {
        let mut folders = List::new(alloc);
        add_folders(alloc, &mut folders, self.includes.as_slice())?;
        Ok(folders)
    }

    /// How often a path is opened again where a fault of the disk, or want of memory, ended its opening: never where nothing is said of it.
    pub fn retries(&self) -> u32
        ensures { result ≡ retries_of (args_told self.now) }
    {
        match self.retries {
            Some(retries) => u32::from(retries),
            None => 0,
        }
    }

    /// Whether nothing but `--generate` was given.
    fn is_alone(&self) -> bool
        ensures { result ≡ is_alone_of (args_told self.now) }
    {
        self.includes.is_empty()
            && self.output.is_none()
            && !self.include_imports
            && !self.include_source_info
            && self.descriptor_set_in.is_none()
            && self.retries.is_none()
            && self.type_name.is_none()
            && self.wire.is_none()
            && self.json.first.is_none()
            && self.files.is_empty()
    }

    /// The flag of the JSON that stands without `--type`, if there is one: the first.
    fn flag_without_type(&self) -> Option<&'w str>
        ensures { option_copied result ≡ flag_without_type (args_told self.now) }
    {
        if self.type_name.is_some() {
            return None;
        }
        self.json.first
    }

    /// The first fault of all words together, if there is one.
    pub(crate) fn fault_in(&self) -> Option<WordFault<'w>>
        ensures { option_map fault_told result ≡ fault_in_of (args_told self.now) }
    {
        if self.generate.is_some() {
            return if self.is_alone() {
                None
            } else {
                Some(WordFault::NotAlone)
            };
        }
        if self.files.is_empty() {
            return Some(WordFault::NoFile);
        }
        if self.wire.is_some() && self.type_name.is_none() {
            return Some(WordFault::NeedsType { option: "--wire" });
        }
        if self.descriptor_set_in.is_some() && !self.includes.is_empty() {
            return Some(WordFault::ExcludesInclude);
        }
        match self.flag_without_type() {
            Some(option) => Some(WordFault::NeedsType { option }),
            None => None,
        }
    }
}

/// Adds the folders of `-I`, or `.` where there are none.
fn add_folders(alloc: Global, folders: &mut Texts, includes: &[Text]) -> Result<(), NoMemory>
    ensures { OnOk result (folders.new ≡ folders.old ++ folders_among includes.now) }
{
    if includes.is_empty() {
        return add(alloc, folders, ".");
    }
    for folder in includes {
        add(alloc, folders, folder.as_str())?;
    }
    Ok(())
}

/// Adds a copy of the word.
pub(crate) fn add(alloc: Global, list: &mut Texts, word: &str) -> Result<(), NoMemory>
    ensures { OnOk result (list.new ≡ list.old ++ word.now ∷ []) }
{
    list.add(Text::from_str(alloc, word)?)
}
