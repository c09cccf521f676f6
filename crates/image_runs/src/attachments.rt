//! What attachments keep and change.

ghost use Rattle.image_runs.specs.Laws.{RunsStayAlike, LegsStayAlike, AttachmentKeeps, AttachmentIsImage, PartIsCode, UndoneIsImage, CodeIsWhole, ImageIsListed, PlacesStay};
ghost use Rattle.image_runs.specs.Selecting.{Selected};

use crate::Selection;
use crate::relied_on::lower_laws;
use asm_select::slots_are_whole;

/// Pieces and cuts that are added change nothing of a run so far.
pub fn runs_stay_alike<T: Selection>()
    ensures runs { (x : T) (told : Selected) → RunsStayAlike (T.model x told) }
    ensures legs { (x : T) (told : Selected) → LegsStayAlike (T.model x told) }
{}

/// An attachment keeps every activation beside its pieces, ended ones too.
pub fn attachment_keeps<T: Selection>()
    ensures { (x : T) (told : Selected) → AttachmentKeeps (T.model x told) }
{}

/// What an attachment appends and changes is an image again.
pub fn attachment_is_image<T: Selection>()
    ensures { (x : T) (told : Selected) → AttachmentIsImage (T.model x told) }
{}

/// The bytes of an attachment are appended, then four bytes change a copy of the guard.
pub fn part_is_code()
    ensures { PartIsCode }
{}

/// With chosen attachments undone, what stands is the image of the others.
pub fn undone_is_image<T: Selection>()
    ensures { (x : T) (told : Selected) → UndoneIsImage (T.model x told) }
{}

/// The code of an image is whole.
pub fn code_is_whole<T: Selection>()
    ensures { (x : T) (told : Selected) → CodeIsWhole (T.model x told) }
{
    slots_are_whole();
}

/// The places of its listing are those of its slots, and an attachment keeps them.
pub fn image_is_listed<T: Selection>()
    ensures places { (x : T) (told : Selected) → ImageIsListed (T.model x told) }
    ensures stay { PlacesStay }
{
    lower_laws();
}
