ghost use Rattle.pbx_desc_encoding.specs.Laws.{DepthOfMessage, DepthOfFile, DepthOfSet, DepthOfFiles};

/// A content has no more levels below its top than `specs/Levels.antt` tells of the record: one for
/// each nesting of records and of groups among their unknown records.
pub fn levels_bound_depth()
    ensures message { DepthOfMessage }
    ensures file { DepthOfFile }
    ensures set { DepthOfSet }
    ensures files { DepthOfFiles }
{}
