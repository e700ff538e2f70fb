ghost use Rattle.pbx_desc_shapes.specs.DescriptorShape.{descriptor_shape};
ghost use Rattle.pbx_desc_encoding.specs.Content.{options_content};

use crate::contents::{FieldList, HasContents};
use crate::encoding::{Message, record_bytes};
use pbx_content_codec::Contents;
use pbx_desc_records::Options;
use pbx_desc_shapes::descriptor_place as place;
use pbx_wire::NoMemory;
use std::alloc::Global;

impl HasContents for Options {
    ghost TYPE_AT = { 14 };

    ghost content = { options_content };

    const TYPE_AT: usize = place::FILE_OPTIONS;

    fn to_contents(&self, alloc: Global) -> Result<Contents, NoMemory> {
        FieldList::new(alloc).with_unknown(&self.recs, &[])
    }
}

/// As a message of any type of options, since all are written alike.
impl Message for Options {
    ghost shape = { λ _. descriptor_shape };

    ghost type_at = { λ _. 14 };

    ghost content = { options_content };

    fn encode_to_vec(&self, alloc: Global) -> Result<Vec<u8>, NoMemory> {
        record_bytes(alloc, self)
    }
}
