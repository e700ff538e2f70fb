ghost use Rattle.std.specs.Prelude.{◌≡◌, map, option_map};
ghost use Rattle.pbx_wire.specs.View.{rec_of};
ghost use Rattle.pbx_content.specs.Shape.{form_of, as_varint, as_four, as_eight};
ghost use Rattle.pbx_content.specs.Meaning.{numeric, number_in, unzigzag};
ghost use Rattle.pbx_content.specs.Onto.{elements as elements_of};
ghost use Rattle.pbx_content_codec.specs.View.{val_of};

use crate::contents::Held;
use crate::fields::{Form, form_of_kind};
use pbx_content::Kind;
use pbx_wire::{List, RecRef};
use std::alloc::Global;

fn unzigzag_low(low: u32) -> i32
    ensures { result ≡ unzigzag low }
{
    let half = (low / 2).cast_signed();
    if low % 2 == 0 { half } else { -1 - half }
}

fn unzigzag_all(value: u64) -> i64
    ensures { result ≡ unzigzag value }
{
    let half = (value / 2).cast_signed();
    if value % 2 == 0 { half } else { -1 - half }
}

/// The value that a varint is.
pub(crate) fn from_varint(kind: Kind, value: u64) -> Held
    requires { form_of kind ≡ as_varint }
    ensures { val_of result ≡ numeric kind value }
{
    match kind {
        Kind::Int32 => Held::I32(((value % 4294967296) as u32).cast_signed()),
        Kind::Enum(_) => Held::I32(((value % 4294967296) as u32).cast_signed()),
        Kind::Int64 => Held::I64(value.cast_signed()),
        Kind::Uint32 => Held::U32((value % 4294967296) as u32),
        Kind::Sint32 => Held::I32(unzigzag_low((value % 4294967296) as u32)),
        Kind::Sint64 => Held::I64(unzigzag_all(value)),
        Kind::Bool => Held::Bool(value != 0),
        _ => Held::U64(value),
    }
}

/// The value that four bytes are.
pub(crate) fn from_four(kind: Kind, value: u32) -> Held
    requires { form_of kind ≡ as_four }
    ensures { val_of result ≡ numeric kind value }
{
    match kind {
        Kind::Sfixed32 => Held::I32(value.cast_signed()),
        _ => Held::U32(value),
    }
}

/// The value that eight bytes are.
pub(crate) fn from_eight(kind: Kind, value: u64) -> Held
    requires { form_of kind ≡ as_eight }
    ensures { val_of result ≡ numeric kind value }
{
    match kind {
        Kind::Sfixed64 => Held::I64(value.cast_signed()),
        _ => Held::U64(value),
    }
}

/// The value of a record of the kind's form, where the kind is one of numbers.
pub(crate) fn number_alone(kind: Kind, rec: &RecRef<'_>) -> Option<Held>
    ensures { option_map val_of result ≡ option_map (numeric kind) (number_in (form_of kind) (rec_of rec.now)) }
{
    match form_of_kind(kind) {
        Form::Varint => match rec {
            RecRef::Varint(_, value) => Some(from_varint(kind, *value)),
            _ => None,
        },
        Form::Four => match rec {
            RecRef::Fixed32(_, value) => Some(from_four(kind, *value)),
            _ => None,
        },
        Form::Eight => match rec {
            RecRef::Fixed64(_, value) => Some(from_eight(kind, *value)),
            _ => None,
        },
        Form::Payload => None,
    }
}

/// The elements that a field has.
#[tactic(auto, using(crate::proofs::Tree::elements_many))]
pub(crate) fn list_held(alloc: Global, old: Option<Held>) -> List<Held>
    ensures { map val_of result ≡ elements_of (option_map val_of old) }
{
    match old {
        Some(Held::Many(many)) => many,
        other => {
            drop(other);
            List::new(alloc)
        }
    }
}
