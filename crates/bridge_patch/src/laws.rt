//! What holds of images: laws over the definitions that the contracts cite.
#![tactic(auto)]

ghost use Rattle.bridge_patch.specs.Attached.{AttachesAgain};

/// An image to which a bridge was attached is one to which bridges may be attached.
pub fn bridges_attach_again()
    ensures { AttachesAgain }
{}
