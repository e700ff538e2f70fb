// Parts of a pool by their full names.
ghost use Rattle.std.specs.Prelude.{◌≡◌, option_copied};
ghost use Rattle.pbx_link_definitions.specs.Names.{is_named, dotted};
ghost use Rattle.pbx_link_definitions.specs.Definitions.{messages, enums, extensions, services, message_name, enum_name, field_name, service_name};
ghost use Rattle.pbx_link_scope.specs.Pooled.{file_index};
ghost use Rattle.pbx_link_pool.specs.Places.{place_with_file};
ghost use Rattle.pbx_link_meaning.specs.Descriptors.{file_of_name, message_of_name, enum_of_name, extension_of_name, service_of_name};
ghost use Rattle.pbx_link_meaning.specs.Descriptors.{behind_dot as behind_dot_of, message_referred as message_referred_of};
ghost use Rattle.pbx_link_meaning.specs.Descriptors.{enum_referred as enum_referred_of, is_entry_described};

use crate::enumeration::EnumDescriptor;
use crate::extension::ExtensionDescriptor;
use crate::file::FileDescriptor;
use crate::message::MessageDescriptor;
use crate::pool::DescriptorPool;
use crate::service::ServiceDescriptor;
use pbx_link_scope::Pooled;
use pbx_wire::Text;

/// What stands behind a leading dot.
fn behind_dot(name: &str) -> Option<&str>
    ensures { option_copied result ≡ behind_dot_of name.now }
{
    name.strip_prefix('.')
}

/// Whether the reference is this name behind a dot.
pub(crate) fn is_dotted(reference: &Option<Text>, name: &str) -> bool
    ensures { result ≡ is_named reference.now (dotted name.now) }
{
    match reference {
        Some(reference) => match behind_dot(reference.as_str()) {
            Some(other) => other == name,
            None => false,
        },
        None => false,
    }
}

impl DescriptorPool {
    /// The index of the file of exactly this name.
    fn file_place(&self, name: &str) -> Option<usize>
        ensures { result ≡ file_index self.now name.now }
    {
        match self.linked() {
            Some(pool) => pool.file_index(name),
            None => None,
        }
    }

    /// The file of exactly that name. It takes no memory.
    pub fn get_file_by_name(&self, name: &str) -> Option<FileDescriptor>
        ensures { result ≡ file_of_name self.now name.now }
    {
        let index = self.file_place(name)?;
        let table = self.table(index).copy();
        Some(FileDescriptor {
            pool: self.copy(),
            table,
        })
    }

    /// The index of the file of the message of exactly this full name, and that of the message in the file.
    fn message_place(&self, name: &str) -> Option<(usize, usize)>
        ensures { result ≡ place_with_file messages message_name self.now name.now }
    {
        match self.linked() {
            Some(pool) => pool.message_place(name),
            None => None,
        }
    }

    /// The message of exactly that full name, without a leading dot. It takes no memory.
    pub fn get_message_by_name(&self, name: &str) -> Option<MessageDescriptor>
        ensures { result ≡ message_of_name self.now name.now }
    {
        let (file, index) = self.message_place(name)?;
        let table = self.table(file).copy();
        Some(MessageDescriptor {
            pool: self.copy(),
            table,
            index,
        })
    }

    /// The index of the file of the enum of exactly this full name, and that of the enum in the file.
    fn enum_place(&self, name: &str) -> Option<(usize, usize)>
        ensures { result ≡ place_with_file enums enum_name self.now name.now }
    {
        match self.linked() {
            Some(pool) => pool.enum_place(name),
            None => None,
        }
    }

    /// The enum of exactly that full name, without a leading dot. It takes no memory.
    pub fn get_enum_by_name(&self, name: &str) -> Option<EnumDescriptor>
        ensures { result ≡ enum_of_name self.now name.now }
    {
        let (file, index) = self.enum_place(name)?;
        let table = self.table(file).copy();
        Some(EnumDescriptor {
            pool: self.copy(),
            table,
            index,
        })
    }

    /// The index of the file of the extension of exactly this full name, and that of the extension in the file.
    fn extension_place(&self, name: &str) -> Option<(usize, usize)>
        ensures { result ≡ place_with_file extensions field_name self.now name.now }
    {
        match self.linked() {
            Some(pool) => pool.extension_place(name),
            None => None,
        }
    }

    /// The extension of exactly that full name, without a leading dot. It takes no memory.
    pub fn get_extension_by_name(&self, name: &str) -> Option<ExtensionDescriptor>
        ensures { result ≡ extension_of_name self.now name.now }
    {
        let (file, index) = self.extension_place(name)?;
        let table = self.table(file).copy();
        Some(ExtensionDescriptor {
            pool: self.copy(),
            table,
            index,
        })
    }

    /// The index of the file of the service of exactly this full name, and that of the service in the file.
    fn service_place(&self, name: &str) -> Option<(usize, usize)>
        ensures { result ≡ place_with_file services service_name self.now name.now }
    {
        match self.linked() {
            Some(pool) => pool.service_place(name),
            None => None,
        }
    }

    /// The service of exactly that full name, without a leading dot. It takes no memory.
    pub fn get_service_by_name(&self, name: &str) -> Option<ServiceDescriptor>
        ensures { result ≡ service_of_name self.now name.now }
    {
        let (file, index) = self.service_place(name)?;
        let table = self.table(file).copy();
        Some(ServiceDescriptor {
            pool: self.copy(),
            table,
            index,
        })
    }

    /// The message that a linked reference names.
    pub(crate) fn message_referred(&self, name: &Option<Text>) -> Option<MessageDescriptor>
        ensures { result ≡ message_referred_of self.now name.now }
    {
        match name {
            Some(name) => match behind_dot(name.as_str()) {
                Some(name) => self.get_message_by_name(name),
                None => None,
            },
            None => None,
        }
    }

    /// The enum that a linked reference names.
    pub(crate) fn enum_referred(&self, name: &Option<Text>) -> Option<EnumDescriptor>
        ensures { result ≡ enum_referred_of self.now name.now }
    {
        match name {
            Some(name) => match behind_dot(name.as_str()) {
                Some(name) => self.get_enum_by_name(name),
                None => None,
            },
            None => None,
        }
    }

    /// Whether a linked reference names the entry of a map.
    pub(crate) fn is_entry_named(&self, name: &Option<Text>) -> bool
        ensures { result ≡ is_entry_described (message_referred_of self.now name.now) }
    {
        match self.message_referred(name) {
            Some(message) => message.is_map_entry(),
            None => false,
        }
    }
}
