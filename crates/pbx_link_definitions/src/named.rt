// Records that have a name of their own (`descriptor.proto`: the fields `name`).
ghost use Rattle.std.specs.Prelude.{◌≡◌};

use crate::absent::text_or_empty;
use pbx_desc_records::{
    DescriptorProto, EnumDescriptorProto, EnumValueDescriptorProto, FieldDescriptorProto,
    MethodDescriptorProto, OneofDescriptorProto,
};

/// A record that has a name of its own.
pub trait Named {
    ghost use Rattle.std.specs.Prelude.{List as ListOf, Option as OptionOf, ℕ};
    ghost use Rattle.pbx_link_definitions.specs.Names.{text_or_empty as text_or_empty_of};

    ghost name: { Self → OptionOf (ListOf ℕ) };

    /// The name, which is empty where the record has none.
    fn own_name(&self) -> &str
        ensures { result.now ≡ text_or_empty_of (name self.now) };
}

impl Named for DescriptorProto {
    ghost use Rattle.pbx_desc_records.specs.declared.message.DescriptorProto.{out-DescriptorProto};

    ghost name = { λ x. (out-DescriptorProto x).name };

    fn own_name(&self) -> &str {
        text_or_empty(&self.name)
    }
}

impl Named for EnumDescriptorProto {
    ghost name = { λ x. x.name };

    fn own_name(&self) -> &str {
        text_or_empty(&self.name)
    }
}

impl Named for EnumValueDescriptorProto {
    ghost name = { λ x. x.name };

    fn own_name(&self) -> &str {
        text_or_empty(&self.name)
    }
}

impl Named for FieldDescriptorProto {
    ghost name = { λ x. x.name };

    fn own_name(&self) -> &str {
        text_or_empty(&self.name)
    }
}

impl Named for MethodDescriptorProto {
    ghost name = { λ x. x.name };

    fn own_name(&self) -> &str {
        text_or_empty(&self.name)
    }
}

impl Named for OneofDescriptorProto {
    ghost name = { λ x. x.name };

    fn own_name(&self) -> &str {
        text_or_empty(&self.name)
    }
}
