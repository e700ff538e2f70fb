// Laws that callers use in their proofs. They have no body.
ghost use Rattle.pbx_message_laws.specs.Types.{PlaceHasType, ReferredHasPlace, KindHasType};
ghost use Rattle.pbx_message_laws.specs.Oneofs.{OtherIsMember, ExtensionIsNone};
ghost use Rattle.pbx_message_laws.specs.Laws.{EmptyIsSound, SettingIsSound, ClearingIsSound, SoundAscends, SetIs, SetIsGot, ClearedIs, ClearedIsGone};
ghost use Rattle.pbx_message_laws.specs.Laws.{HasIsGet, SettingKeeps};
ghost use Rattle.pbx_message_laws.specs.Laws.{SoundIsSettable, ListIsOfKind, MapIsOfKinds, SignedInOrder, UnsignedInOrder, TruthsInOrder, TextsInOrder};
ghost use Rattle.pbx_message_laws.specs.Pools.{DeclaredIsListed, ListedIsDeclared, FoundIsListed, MessageIsPlaced, SameIsEqual, PlaceIsOwn};
ghost use Rattle.pbx_message_laws.specs.Pools.{FieldIsListed, ExtensionIsListed, ListedIsField, SameHasField, SameHasExtension, DefaultIsSettable};
ghost use Rattle.pbx_message_laws.specs.Pools.{ReadIsSettable, NamedIsField};

/// A message of any type may hold nothing.
#[tactic(auto, using(crate::proofs::Setting::empty_is_sound))]
pub fn empty_is_sound()
    ensures { EmptyIsSound }
{}

/// A field that is set to a value which it may have leaves a content that the message may have.
#[tactic(auto, using(crate::proofs::Setting::setting_is_sound))]
pub fn setting_is_sound()
    ensures { SettingIsSound }
{}

/// So does a field that is cleared.
#[tactic(auto, using(crate::proofs::Setting::clearing_is_sound))]
pub fn clearing_is_sound()
    ensures { ClearingIsSound }
{}

/// Which values the fields have after one is set or cleared. Kept records stay.
pub fn fields_are_as_set()
    ensures ascends { SoundAscends }
    ensures set { SetIs }
    ensures got { SetIsGot }
    ensures cleared { ClearedIs }
    ensures gone { ClearedIsGone }
    ensures has { HasIsGet }
    ensures kept { SettingKeeps }
{}

/// A value that a field has may be set again.
#[tactic(auto, using(crate::proofs::Settable::sound_is_settable))]
pub fn sound_values_are_settable()
    ensures { SoundIsSettable }
{}

/// What lists and maps are is said of their items.
#[tactic(auto, using(crate::proofs::Items::list_is_of_kind, crate::proofs::Items::map_is_of_kinds))]
pub fn items_are_of_kinds()
    ensures lists { ListIsOfKind }
    ensures maps { MapIsOfKinds }
{}

/// Keys of one sort ascend as what they are.
pub fn keys_are_in_order()
    ensures signed { SignedInOrder }
    ensures unsigned { UnsignedInOrder }
    ensures truths { TruthsInOrder }
    ensures texts { TextsInOrder }
{}

/// The fields of a type are those of their numbers.
#[tactic(auto, using(crate::proofs::Listed::declared_is_listed, crate::proofs::Listed::listed_is_declared, crate::proofs::Listed::found_is_listed))]
pub fn fields_are_listed()
    ensures listed { DeclaredIsListed }
    ensures declared { ListedIsDeclared }
    ensures found { FoundIsListed }
{}

/// Messages of a pool stand at their places in its shape.
#[tactic(auto, using(crate::proofs::Placed::message_is_placed, crate::proofs::Placed::same_is_equal, crate::proofs::Placed::place_is_own))]
pub fn messages_are_placed()
    ensures placed { MessageIsPlaced }
    ensures same { SameIsEqual }
    ensures own { PlaceIsOwn }
{}

/// The fields of a message's type are its fields and its extensions.
pub fn fields_of_messages()
    ensures fields { FieldIsListed }
    ensures extensions { ExtensionIsListed }
    ensures only { ListedIsField }
    ensures same_fields { SameHasField }
    ensures same_extensions { SameHasExtension }
    ensures named { NamedIsField }
{}

/// A field may be set to its default, and to what is read of it.
#[tactic(auto, using(crate::proofs::DefaultSettable::default_is_settable, crate::proofs::DefaultSettable::read_is_settable))]
pub fn defaults_are_settable()
    ensures default { DefaultIsSettable }
    ensures read { ReadIsSettable }
{}

/// The other members of a field's oneof are the fields of the message in the same oneof.
#[tactic(auto, using(crate::proofs::Shared::other_is_member, crate::proofs::Shared::extension_is_none))]
pub fn members_of_oneofs()
    ensures fields { OtherIsMember }
    ensures extensions { ExtensionIsNone }
{}

/// The message types that kinds name by their places are messages of the pool.
pub fn kinds_have_types()
    ensures place { PlaceHasType }
    ensures referred { ReferredHasPlace }
    ensures kind { KindHasType }
{}
