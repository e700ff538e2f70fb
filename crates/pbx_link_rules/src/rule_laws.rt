// Laws that callers use in their proofs. They have no body.
ghost use Rattle.pbx_link_rules.specs.RuleLaws.{LinksUnlessBroken, FirstRuleIsOne, KeepsEach, FirstAlone, FirstBehind, NoneIsBroken};

/// The rules are kept exactly where none is broken, which is where both searches find none.
#[tactic(auto, using(crate::proofs::RulesKept::links_unless_broken, crate::proofs::RulesKept::keeps_each, crate::proofs::RulesKept::none_is_broken))]
pub fn rules_are_kept()
    ensures unless_broken { LinksUnlessBroken }
    ensures each { KeepsEach }
    ensures none { NoneIsBroken }
{}

/// What the searches find is the first breach, whose rule is one.
#[tactic(auto, using(crate::proofs::RulesKept::first_rule_is_one))]
pub fn breach_is_first()
    ensures one { FirstRuleIsOne }
    ensures alone { FirstAlone }
    ensures behind { FirstBehind }
{}
