// The messages in whose bodies parts of a file stand.
ghost use Rattle.std.specs.Prelude.{◌≡◌, ◌<◌, None, Some, find, length, MatchOption};
ghost use Rattle.std.specs.Str.{bytes_eq};
ghost use Rattle.pbx_desc_records.specs.declared.message.DescriptorProto.{DescriptorProto as MessageOf};
ghost use Rattle.pbx_link_definitions.specs.Definitions.{Part, messages, message_name};
ghost use Rattle.pbx_link.specs.Tables.{part_at, no_message};

use pbx_link_tables::FileTable;

/// The index of the message of exactly this full name in the file.
pub(crate) fn message_position(table: &FileTable, name: &str) -> Option<usize>
    ensures { MatchOption result (find (λ (m : Part MessageOf). bytes_eq (message_name m) name.now) (messages table.now) ≡ None) (λ i.
        (i < length (messages table.now))
        × (find (λ (m : Part MessageOf). bytes_eq (message_name m) name.now) (messages table.now) ≡ Some (part_at no_message (messages table.now) i))) }
{
    let mut index = 0;
    while index < table.message_count() {
        if table.message_name(index).unwrap() == name {
            return Some(index);
        }
        index += 1;
    }
    None
}
