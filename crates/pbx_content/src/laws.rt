ghost use Rattle.pbx_content.specs.Laws.{EncodingDecodes, EncodingDecodesWithin, EncodingDecodesParts, MeaningIsSound, PartsMeaningIsSound, DecodesToOne};
ghost use Rattle.pbx_content.specs.Laws.{DecodesToSame, SameIsWrittenAlike, SameIsReflexive, SameIsSymmetric, SameIsTransitive, SortedAlike, OntoEmpty};
ghost use Rattle.pbx_content.specs.Laws.{OntoIsFollowing, OntoJudgesTheNew, MergedIsFollowing, MergedJudgesTheNew, MergedIsSound, MergedIsShallow};
ghost use Rattle.pbx_content.specs.Laws.{MeansOrFaulty, FaultyMeansNothing, PartsMeanOrFaulty, FaultyPartsMeanNothing};
ghost use Rattle.pbx_content.specs.Laws.{MessageFaultsAreWith, MeansOrFaultyWith, FaultyMeansNothingWith, FirstIsWith, FaultsBehind, FirstBehind};
ghost use Rattle.pbx_content.specs.Laws.{FirstAtFront, FirstByKey, FirstOfRecord, FirstAsField, FirstInPayload, RecMeansNothing, NumbersGoOn, NumbersStop};
ghost use Rattle.pbx_content.specs.Laws.{SpelledNext, OntoAppends, OntoMeansAlone, FirstIsMerged};
ghost use Rattle.pbx_content.specs.Laws.{EmptyIsStable, OntoIsStable, SoundIsStable, OntoNothing, OntoKeepsOne, OntoReadsOne};

/// What is written for a content decodes to it, where it nests no deeper than is read and its text has a length
/// that memory can have.
pub fn encoding_decodes()
    ensures whole { EncodingDecodes }
    ensures within { EncodingDecodesWithin }
    ensures parts { EncodingDecodesParts }
{}

/// What bytes mean is a content that a message of the type may have.
pub fn meaning_is_sound()
    ensures whole { MeaningIsSound }
    ensures parts { PartsMeaningIsSound }
{}

/// Bytes decode to at most one content, up to the order of kept records of different numbers.
pub fn decodes_to_one()
    ensures one { DecodesToOne }
    ensures same { DecodesToSame }
{}

/// Contents that are the same have one canonical encoding.
pub fn same_is_written_alike()
    ensures { SameIsWrittenAlike }
{}

/// `Same` is an equivalence.
pub fn same_is_equivalence()
    ensures reflexive { SameIsReflexive }
    ensures symmetric { SameIsSymmetric }
    ensures transitive { SameIsTransitive }
{}

/// What `Same` says of kept records.
pub fn sorted_records_are_alike()
    ensures { SortedAlike }
{}

/// What records mean behind a content is what they mean behind any records that mean it, and bytes that are merged mean what they
/// mean behind the text of the old content.
pub fn onto_is_following()
    ensures empty { OntoEmpty }
    ensures following { OntoIsFollowing }
    ensures judges { OntoJudgesTheNew }
    ensures merged { MergedIsFollowing }
    ensures merged_where { MergedJudgesTheNew }
    ensures sound { MergedIsSound }
    ensures shallow { MergedIsShallow }
{}

/// Bytes mean something as a message exactly where they break no rule.
pub fn means_or_faulty()
    ensures either { MeansOrFaulty }
    ensures not_both { FaultyMeansNothing }
    ensures parts { PartsMeanOrFaulty }
    ensures not_both_parts { FaultyPartsMeanNothing }
{}

/// The same with levels of groups and levels of messages told apart, as a message that is read part by part has them.
pub fn means_or_faulty_with()
    ensures either { MeansOrFaultyWith }
    ensures not_both { FaultyMeansNothingWith }
    ensures alike { MessageFaultsAreWith }
    ensures first { FirstIsWith }
    ensures merged { FirstIsMerged }
{}

/// Who reads record by record from the front may forget those that mean something: the faults are those of the rest.
pub fn faults_are_behind()
    ensures all { FaultsBehind }
    ensures first { FirstBehind }
{}

/// Which fault of the record at the front is a first one.
pub fn first_at_front()
    ensures at_front { FirstAtFront }
    ensures by_key { FirstByKey }
    ensures of_record { FirstOfRecord }
    ensures as_field { FirstAsField }
    ensures in_payload { FirstInPayload }
{}

/// Why a record of a field means nothing alone.
pub fn rec_means_nothing()
    ensures { RecMeansNothing }
{}

/// The numbers of a packed payload are read one by one.
pub fn numbers_one_by_one()
    ensures go_on { NumbersGoOn }
    ensures stop { NumbersStop }
{}

/// Records are read one by one, each behind what those before it mean.
pub fn records_one_by_one()
    ensures spelled { SpelledNext }
    ensures meant { OntoAppends }
    ensures alone { OntoMeansAlone }
{}

/// What one record changes of a content that records mean.
pub fn one_record()
    ensures empty { EmptyIsStable }
    ensures stable { OntoIsStable }
    ensures sound { SoundIsStable }
    ensures nothing { OntoNothing }
    ensures kept { OntoKeepsOne }
    ensures read { OntoReadsOne }
{}
