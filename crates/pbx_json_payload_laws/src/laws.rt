// Laws that callers use in their proofs. They have no bodies.
ghost use Rattle.pbx_json_payload_laws.specs.Laws.{PayloadsByContent, FitsByContent, FaultyFitsNot};

/// A payload is written as the content that its bytes mean is.
#[tactic(auto, using(crate::proofs::Payloads::payloads_by_content))]
pub fn payloads_by_content()
    ensures { PayloadsByContent }
{}

/// A payload is read again exactly where its bytes mean a content and so do the payloads in that content.
#[tactic(auto, using(crate::proofs::Fitting::fits_by_content, crate::proofs::Fitting::faulty_fits_not))]
pub fn fits_by_content()
    ensures content { FitsByContent }
    ensures faulty { FaultyFitsNot }
{}
