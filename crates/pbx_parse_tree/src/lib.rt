//! The syntax tree of a source file, with the grammar that says which tokens it spells.
#![tactic(auto)]

mod conditions;
mod law;
mod options;
mod statements;
mod tree;

pub use conditions::{
    Allowed, Expected, Wanted, key_fits, listed, name_fits, text_fits, type_fits, value_fits,
};
pub use law::at_most_one;
pub use options::{KnownOption, OptionKind, OptionPlace, known_option, optimize_mode};
pub use statements::{
    enum_settings, file_settings, message_settings, method_settings, service_settings,
};
pub use tree::{
    Constant, Enum, EnumItem, EnumNumber, Extend, Extension, Extensions, Field, FieldNumber, File,
    Head, Import, Item, Kind, Label, Literal, MapField, Member, Message, Method, MethodEnd,
    MethodItem, MethodType, Modifier, Name, Number, Oneof, Package, Range, RangeEnd, RangeNumber,
    Reserved, Scalar, Separated, Service, ServiceItem, Setting, Settings, Statement, Syntax, Tail,
    Top, TypeName, Value, Version,
};
