// What a file sees, as look-ups of full names.
ghost use Rattle.std.specs.Prelude.{◌≡◌};
ghost use Rattle.pbx_link_scope.specs.Scope.{type_named as type_named_of, is_scope_name as is_scope_name_of};

use crate::types::Bound;

/// The files that a file sees, as look-ups of full names in them.
pub trait Visible {
    ghost use Rattle.std.specs.Prelude.{List};
    ghost use Rattle.pbx_desc_records.specs.declared.file.FileDescriptorProto.{FileDescriptorProto};

    ghost files: { Self → List FileDescriptorProto };

    /// The message or enum of exactly this full name.
    fn type_named(&self, name: &str) -> Option<Bound<'_>>
        ensures { result ≡ type_named_of (files self.now) name.now };

    /// Whether a message, enum, service or package has exactly this full name.
    fn is_scope_name(&self, name: &str) -> bool
        ensures { result ≡ is_scope_name_of (files self.now) name.now };
}
