// Laws that callers use in their proofs. They have no bodies.
ghost use Rattle.pbx_json_payload_laws.specs.PayloadLaws.{MeaningShrinks, MoreLevels, EncodedIsRead};

/// Bytes that stand as values inside what bytes mean are shorter than these.
#[tactic(auto, using(crate::proofs::Shrinks::meaning_shrinks))]
pub fn meaning_shrinks()
    ensures { MeaningShrinks }
{}

/// Levels that are not needed change nothing of what bytes mean.
#[tactic(auto, using(pbx_content::proofs::More::more_levels))]
pub fn more_levels()
    ensures { MoreLevels }
{}

/// What is written of a content without kept records is read as this content, if it is read.
#[tactic(auto, using(crate::proofs::Read::encoded_is_read))]
pub fn encoded_is_read()
    ensures { EncodedIsRead }
{}
