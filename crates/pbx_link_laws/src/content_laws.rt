// Laws that callers use in their proofs. They have no body.
ghost use Rattle.pbx_link_laws.specs.ContentLaws.{SettledIsSettled, RulesAreOfContents, LinkingIsOfContents};
ghost use Rattle.pbx_link_laws.specs.ContentLaws.{LinkedIsLinked, SettledIsLinked, PooledAreLinked, PoolIsLinked};

/// A record and the same one settled break the same rules at the same places, and are linked to the same record.
#[tactic(auto, using(crate::proofs::Once::settled_is_settled, crate::proofs::Rules::rules_are_of_contents, crate::proofs::Linking::linking_is_of_contents))]
pub fn contents_decide()
    ensures settled { SettledIsSettled }
    ensures rules { RulesAreOfContents }
    ensures linking { LinkingIsOfContents }
{}

/// A linked record is linked to itself, and so is each record of its content; each file of a pool is.
pub fn linking_ends()
    ensures again { LinkedIsLinked }
    ensures same { SettledIsLinked }
    ensures pool { PooledAreLinked }
    ensures each { PoolIsLinked }
{}
