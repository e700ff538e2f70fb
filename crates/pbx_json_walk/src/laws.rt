// Laws that callers use in their proofs.
ghost use Rattle.pbx_json_walk.specs.Laws.{MessageIsTold, FaultIsFirst};

use pbx_json_meaning::{first_fault_at_key, first_fault_below, first_fault_here};

/// What is answered for a message is the content that its tree stands for, and of a fault no content stands for the tree.
#[tactic(auto, using(crate::proofs::Told::message_is_told))]
pub fn message_is_told()
    ensures { MessageIsTold }
{}

/// A fault that is answered for a message is the first of its tree.
pub fn fault_is_first()
    ensures { FaultIsFirst }
{
    first_fault_here();
    first_fault_at_key();
    first_fault_below();
}
