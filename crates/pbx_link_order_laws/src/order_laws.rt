// Laws that callers use in their proofs. They have no body.
ghost use Rattle.pbx_link_order_laws.specs.OrderLaws.{AddedStandBehind, OrderIsFree, PartsLinkAlike};

/// A record that is linked among others is linked to the same record among any part of them that has its imports, in any order in which
/// each file stands behind those that it imports.
pub fn parts_link_alike()
    ensures { PartsLinkAlike }
{}

/// Records that are all added in one order stand behind those that they import; any of them are all added in any such order, and linked alike.
pub fn order_is_free()
    ensures behind { AddedStandBehind }
    ensures orders { OrderIsFree }
{}
