// Laws that callers use in their proofs. They have no body.
ghost use Rattle.pbx_link_definitions.specs.Laws.{MessagesAreTold, ExtensionsAreTold};

/// The messages and the extensions of a file, message by message.
#[tactic(auto, using(crate::proofs::Told::messages_from_at, crate::proofs::Told::extensions_from_at))]
pub fn nested_are_told()
    ensures messages { MessagesAreTold }
    ensures extensions { ExtensionsAreTold }
{}
