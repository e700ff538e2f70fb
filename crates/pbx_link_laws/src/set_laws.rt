// Laws that callers use in their proofs. They have no body.
ghost use Rattle.pbx_link_laws.specs.SetLaws.{SetsAreReadBack};

/// Bytes that decode to the files of a pool, as those of its `encode_to_vec` do, make a pool of equal records, and are refused for want of
/// memory alone: the records that they decode to are all added, and are linked to the files of the pool.
#[tactic(auto, using(crate::proofs::ReadBack::sets_are_read_back))]
pub fn sets_are_read_back()
    ensures { SetsAreReadBack }
{}
