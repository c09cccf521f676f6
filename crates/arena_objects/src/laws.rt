// What holds of objects in an arena: laws over the definitions that the contracts cite.

ghost use Rattle.arena_objects.specs.Laws.{AddressesAreApart, HeadersAreFound, LengthsAreFound, PartsAreFound, PartsAreWritten, WritesMoveNothing, SizesMoveNothing, AllocationsStand, AllocationsAddress, WordsAreAdded, PartsStay, BytesAreTaken, TakenIsThere, BytesAreCounted, BytesAreThose, WalkFinds, ObjectsAreNumbered, ReferencesAreTold, ReferencesAreRead, FoundAreTaken, ObjectsAreReadBack, SpotsAreKnown, SpotsAreFound, SpotsAreWritten, LengthsAreLoaded, HeadersTell, WordsAreKept, KindsInRange, ReferencesCompare, FilledStands};
ghost use Rattle.arena_objects.specs.Walked.{AddressesNumber};
ghost use Rattle.arena_objects.specs.Starting.{PrebuiltsStand, TablesListFields};

/// Each object has an address of its own, in the arena and at a multiple of 8.
pub fn addresses_are_apart()
    ensures { AddressesAreApart }
{}

/// A load finds the header of an object, an array's length, and each part.
pub fn loads_find()
    ensures headers { HeadersAreFound }
    ensures lengths { LengthsAreFound }
    ensures parts { PartsAreFound }
{}

/// A store of a part's word gives the arena of the objects with that part, and moves no object.
pub fn stores_write()
    ensures parts { PartsAreWritten }
    ensures addresses { WritesMoveNothing }
    ensures sizes { SizesMoveNothing }
    ensures filled { FilledStands }
{}

/// Where enough bytes are left, a new object stands behind the others, which stay where they are.
pub fn allocations_stand()
    ensures stand { AllocationsStand }
    ensures address { AllocationsAddress }
    ensures words { WordsAreAdded }
    ensures parts { PartsStay }
{}

/// The bytes that are taken are those of the objects, and no more than there are.
pub fn bytes_are_taken()
    ensures all { BytesAreTaken }
    ensures there { TakenIsThere }
    ensures those { BytesAreThose }
    ensures allocated { BytesAreCounted }
{}

/// The walk over an arena finds the objects that stand in it and nothing else. The word of a reference is 0 or the
/// address of one object alone, and leads back to it.
pub fn walk_finds()
    ensures walk { WalkFinds }
    ensures numbers { ObjectsAreNumbered }
    ensures references { ReferencesAreTold }
    ensures compared { ReferencesCompare }
    ensures read { ReferencesAreRead }
    ensures taken { FoundAreTaken }
    ensures addresses { AddressesNumber }
{}

/// The objects that stand in an arena are read back from its words.
pub fn objects_are_read_back()
    ensures { ObjectsAreReadBack }
{}

/// A spot of an object is found where it is known to lie before the run, and a store there writes the spot.
pub fn spots_lie()
    ensures known { SpotsAreKnown }
    ensures found { SpotsAreFound }
    ensures written { SpotsAreWritten }
    ensures lengths { LengthsAreLoaded }
    ensures headers { HeadersTell }
{}

/// At the start of a run the prebuilt objects stand. In a table in range each field is listed by its own size alone, and
/// the kinds of all parts are known.
pub fn prebuilts_stand()
    ensures stand { PrebuiltsStand }
    ensures fields { TablesListFields }
    ensures kinds { KindsInRange }
    ensures words { WordsAreKept }
{}
