//! What rebuilding over words means: laws over the definitions that the contracts cite.

ghost use Rattle.resume_rebuild.specs.Laws.{RebuildsWhatIsMeant, RebuildsFromParts, TakesWhatIsAsked};
ghost use Rattle.resume_rebuild.specs.Joint.{GivesWhatIsMeant};
ghost use Rattle.resume_rebuild.specs.Guarding.{PlacesTellKinds};
ghost use Rattle.resume_rebuild.specs.Exits.{FormedPiecesRebuild, SoundSnapshotsRebuild};

use arena_objects::{
    addresses_are_apart, allocations_stand, bytes_are_taken, prebuilts_stand, spots_lie,
    stores_write, walk_finds,
};
use trace_meaning::boxes_keep_their_values;
use trace_ops::equality_decides;

/// Where the objects of a world stand in the arena, and each box at its place, rebuilding over words gives an arena in
/// which the objects stand that are meant, and the frames that are meant.
pub fn rebuilds_what_is_meant()
    ensures meant { RebuildsWhatIsMeant }
    ensures parts { RebuildsFromParts }
    ensures bytes { TakesWhatIsAsked }
    ensures kinds { PlacesTellKinds }
    ensures given { GivesWhatIsMeant }
{
    addresses_are_apart();
    allocations_stand();
    bytes_are_taken();
    spots_lie();
    stores_write();
    walk_finds();
    boxes_keep_their_values();
    equality_decides();
}

/// At a guard of a formed piece whose table stands, and for each of whose boxes there is a place, all holds that rebuilding
/// asks for: each sound piece is formed.
pub fn formed_pieces_rebuild()
    ensures { FormedPiecesRebuild }
{
    prebuilts_stand();
    equality_decides();
}

/// A sound snapshot whose integers are words can be rebuilt over the prebuilt objects of its table.
pub fn sound_snapshots_rebuild()
    ensures { SoundSnapshotsRebuild }
{}
