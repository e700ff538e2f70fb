ghost use Rattle.std.specs.Prelude.{◌≡◌};
ghost use Rattle.protox_words.specs.Words.{no_json_flags, has_json, with_json};
ghost use Rattle.protox_words.specs.Told.{json_told};

/// A flag that says how a message is written as JSON.
#[derive(Clone, Copy)]
pub(crate) enum JsonFlag {
    Int64Numbers,
    EnumNumbers,
    ProtoNames,
    Defaults,
}

/// How a message is written as JSON.
#[derive(Clone, Copy, Debug)]
pub struct JsonFlags<'w> {
    /// The first of the flags that were given, as it is written.
    pub first: Option<&'w str>,
    /// Whether integers of 64 bits are written as numbers.
    pub int64_numbers: bool,
    /// Whether enums are written as numbers.
    pub enum_numbers: bool,
    /// Whether fields are written under their names in the source.
    pub proto_names: bool,
    /// Whether fields without presence, but floats and extensions, are written where they have no value.
    pub defaults: bool,
}

impl<'w> JsonFlags<'w> {
    /// No flags.
    pub(crate) fn new() -> Self
        ensures { json_told result ≡ no_json_flags }
    {
        JsonFlags {
            first: None,
            int64_numbers: false,
            enum_numbers: false,
            proto_names: false,
            defaults: false,
        }
    }

    /// Whether the flag was given.
    pub(crate) fn has(&self, flag: JsonFlag) -> bool
        ensures { result ≡ has_json flag (json_told self.now) }
    {
        match flag {
            JsonFlag::Int64Numbers => self.int64_numbers,
            JsonFlag::EnumNumbers => self.enum_numbers,
            JsonFlag::ProtoNames => self.proto_names,
            JsonFlag::Defaults => self.defaults,
        }
    }

    /// Takes the flag as it is written.
    pub(crate) fn add(&mut self, flag: JsonFlag, written: &'w str)
        ensures { json_told self.new ≡ with_json flag written.now (json_told self.old) }
    {
        if self.first.is_none() {
            self.first = Some(written);
        }
        match flag {
            JsonFlag::Int64Numbers => self.int64_numbers = true,
            JsonFlag::EnumNumbers => self.enum_numbers = true,
            JsonFlag::ProtoNames => self.proto_names = true,
            JsonFlag::Defaults => self.defaults = true,
        }
    }
}
