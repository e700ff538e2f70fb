ghost use Rattle.std.specs.Prelude.{◌≡◌};
ghost use Rattle.pbx_json_meaning.specs.Options.{default_writing, default_reading};
ghost use Rattle.pbx_json_meaning.specs.declared.options.SerializeOptions.{SerializeOptions};
ghost use Rattle.pbx_json_meaning.specs.declared.options.DeserializeOptions.{DeserializeOptions};

/// How a message is written as JSON.
#[derive(Clone, Debug, Drop)]
pub struct SerializeOptions {
    /// Whether integers of 64 bits are written as decimal texts.
    pub stringify_64_bit_integers: bool,
    /// Whether enums are written as numbers.
    pub use_enum_numbers: bool,
    /// Whether fields are written under their names in the source.
    pub use_proto_field_name: bool,
    /// Whether fields without presence are left out where they have no value; floats and extensions are left out in any case.
    pub skip_default_fields: bool,
}

impl SerializeOptions {
    /// Integers of 64 bits as texts, enums by name, fields under their JSON names, and no defaults.
    pub fn new() -> SerializeOptions
        ensures { result ≡ default_writing }
    {
        SerializeOptions {
            stringify_64_bit_integers: true,
            use_enum_numbers: false,
            use_proto_field_name: false,
            skip_default_fields: true,
        }
    }

    /// Whether integers of 64 bits are written as decimal texts.
    pub fn stringify_64_bit_integers(self, yes: bool) -> SerializeOptions
        ensures { result ≡ record self { stringify_64_bit_integers = yes } }
    {
        SerializeOptions {
            stringify_64_bit_integers: yes,
            ..self
        }
    }

    /// Whether enums are written as numbers.
    pub fn use_enum_numbers(self, yes: bool) -> SerializeOptions
        ensures { result ≡ record self { use_enum_numbers = yes } }
    {
        SerializeOptions {
            use_enum_numbers: yes,
            ..self
        }
    }

    /// Whether fields are written under their names in the source.
    pub fn use_proto_field_name(self, yes: bool) -> SerializeOptions
        ensures { result ≡ record self { use_proto_field_name = yes } }
    {
        SerializeOptions {
            use_proto_field_name: yes,
            ..self
        }
    }

    /// Whether fields without presence are left out where they have no value; floats and extensions are left out in any case.
    pub fn skip_default_fields(self, yes: bool) -> SerializeOptions
        ensures { result ≡ record self { skip_default_fields = yes } }
    {
        SerializeOptions {
            skip_default_fields: yes,
            ..self
        }
    }
}

impl Default for SerializeOptions {
    fn default() -> SerializeOptions
        ensures { result ≡ default_writing }
    {
        SerializeOptions::new()
    }
}

/// How a message is read from JSON.
#[derive(Clone, Debug, Drop)]
pub struct DeserializeOptions {
    /// Whether a key that names no field is refused, and a name that no enum value has; else both are skipped.
    pub deny_unknown_fields: bool,
}

impl DeserializeOptions {
    /// Unknown fields are refused.
    pub fn new() -> DeserializeOptions
        ensures { result ≡ default_reading }
    {
        DeserializeOptions {
            deny_unknown_fields: true,
        }
    }

    /// Whether unknown fields are refused.
    pub fn deny_unknown_fields(self, yes: bool) -> DeserializeOptions
        ensures { result ≡ record self { deny_unknown_fields = yes } }
    {
        DeserializeOptions {
            deny_unknown_fields: yes,
        }
    }
}

impl Default for DeserializeOptions {
    fn default() -> DeserializeOptions
        ensures { result ≡ default_reading }
    {
        DeserializeOptions::new()
    }
}
