// Laws that callers use in their proofs. They have no body.
ghost use Rattle.pbx_link_laws.specs.SameLaws.{SettledContent, AlikeIsSettled, AlikeBreak, AlikeLink, AlikeIsLinked};

/// Settling the record of a file settles its content, and records of one content are settled to one record.
#[tactic(auto, using(crate::proofs::Contents::settled_content, crate::proofs::Alike::alike_is_settled))]
pub fn settled_is_content()
    ensures content { SettledContent }
    ensures alike { AlikeIsSettled }
{}

/// Records of one content break the same rules at the same places, and are linked to one record: those of a linked record's content to it.
pub fn alike_are_linked()
    ensures rules { AlikeBreak }
    ensures linking { AlikeLink }
    ensures again { AlikeIsLinked }
{}
