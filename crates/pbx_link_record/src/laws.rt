// Laws that callers use in their proofs. They have no body.
ghost use Rattle.pbx_link_record.specs.Laws.{DefinesTheSame, HasLinkedMessages};

/// What the linked record of a file defines, and its messages.
#[tactic(auto, using(crate::proofs::FileDefines::linked_record_defines, crate::proofs::FileDefines::linked_record_messages))]
pub fn linked_is_alike()
    ensures definitions { DefinesTheSame }
    ensures messages { HasLinkedMessages }
{}
