// What one value of a field is.
ghost use Rattle.std.specs.Prelude.{◌≡◌};
ghost use Rattle.pbx_link.specs.Kinds.{scalar_of, kind_in};

use crate::kind::Kind;
use crate::pool::DescriptorPool;
use pbx_desc_records::FieldDescriptorProto;
use pbx_link_definitions::number_or_zero;

/// The scalar of this number.
fn scalar(number: u32) -> Kind
    ensures { result ≡ scalar_of number }
{
    match number {
        1 => Kind::Double,
        2 => Kind::Float,
        3 => Kind::Int64,
        4 => Kind::Uint64,
        5 => Kind::Int32,
        6 => Kind::Fixed64,
        7 => Kind::Fixed32,
        8 => Kind::Bool,
        9 => Kind::String,
        12 => Kind::Bytes,
        13 => Kind::Uint32,
        15 => Kind::Sfixed32,
        16 => Kind::Sfixed64,
        17 => Kind::Sint32,
        _ => Kind::Sint64,
    }
}

impl DescriptorPool {
    /// What one value of the field is. None where its type is a message or an enum that the pool lacks.
    pub(crate) fn kind_of(&self, field: &FieldDescriptorProto) -> Option<Kind>
        ensures { result ≡ kind_in self.now field.now }
    {
        match number_or_zero(field.kind) {
            11 => match self.message_referred(&field.type_name) {
                Some(message) => Some(Kind::Message(message)),
                None => None,
            },
            14 => match self.enum_referred(&field.type_name) {
                Some(enumeration) => Some(Kind::Enum(enumeration)),
                None => None,
            },
            number => Some(scalar(number)),
        }
    }
}
