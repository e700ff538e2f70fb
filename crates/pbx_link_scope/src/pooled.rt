// The files of a pool, as look-ups.
ghost use Rattle.std.specs.Prelude.{◌≡◌, slice_get};
ghost use Rattle.std.specs.Option.{option_copied};
ghost use Rattle.pbx_link_definitions.specs.Names.{among};
ghost use Rattle.pbx_link_scope.specs.Pooled.{file_index as file_index_of, HaveOwnNames, AreDistinct, type_with_file as type_with_file_of};
ghost use Rattle.pbx_link_scope.specs.Pooled.{definition_with_file, scope_with_file, all_packages, is_extended as is_extended_of};

use crate::Bound;
use pbx_desc_records::FileDescriptorProto;

/// The linked records of a pool's files, in the order in which they were added, as look-ups of names.
pub trait Pooled {
    ghost use Rattle.std.specs.Prelude.{List};
    ghost use Rattle.pbx_desc_records.specs.declared.file.FileDescriptorProto.{FileDescriptorProto};

    ghost files: { Self → List FileDescriptorProto };

    /// The file at the index.
    fn file(&self, index: usize) -> Option<&FileDescriptorProto>
        ensures { option_copied result ≡ slice_get (files self.now) index };

    /// The index of the file of exactly this name.
    fn file_index(&self, name: &str) -> Option<usize>
        ensures found { result ≡ file_index_of (files self.now) name.now }
        // No two files have one name.
        ensures own { HaveOwnNames (files self.now) };

    /// The message or enum of exactly this full name, beside the index of its file.
    fn type_with_file(&self, name: &str) -> Option<(usize, Bound<'_>)>
        ensures { result ≡ type_with_file_of (files self.now) name.now };

    /// The index of the file that defines exactly this full name, and whether it is a message, enum or service.
    fn definition_with_file(&self, name: &str) -> Option<(usize, bool)>
        ensures found { result ≡ scope_with_file (definition_with_file (files self.now) name.now) }
        // No full name is defined twice.
        ensures distinct { AreDistinct (files self.now) };

    /// Whether a file's package has this name or begins with it.
    fn is_package(&self, name: &str) -> bool
        ensures { result ≡ among (all_packages (files self.now)) name.now };

    /// Whether an extension extends the message of exactly this full name under the number.
    fn is_extended(&self, extendee: &str, number: Option<i32>) -> bool
        ensures { result ≡ is_extended_of (files self.now) extendee.now number };
}
