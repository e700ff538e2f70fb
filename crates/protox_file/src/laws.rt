//! What holds of resolvers that are asked in turn, and of sets.

ghost use Rattle.protox_file.specs.Laws.{ChainsJoin, NoneHasNothing, SetsDecode, SetsReadOnce};

/// Two lists of members joined have what the first has, and else what the second has.
pub fn chains_join()
    ensures { ChainsJoin }
{}

/// No members have no file and resolve no path.
pub fn no_members_have_nothing()
    ensures { NoneHasNothing }
{}

/// The bytes of a set have one list of files, each with one record, whenever `DescriptorSetFileResolver::decode` reads them:
/// those that the whole set decodes to, so bytes that decode to no set have none.
pub fn sets_are_read_once()
    ensures once { SetsReadOnce }
    ensures decoded { SetsDecode }
{}
