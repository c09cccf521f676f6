//! Stores.

ghost use Rattle.agreement.specs.Writing.{LateStoreAgrees, VirtualStoreAgrees, FlushAgrees, FlushesAgree, BothStoresAgree};

/// The trace stores, and for the piece the store is pending.
pub fn late_store_agrees()
    ensures { LateStoreAgrees }
{}

/// A store into a virtual object changes a part of its shape.
pub fn virtual_store_agrees()
    ensures { VirtualStoreAgrees }
{}

/// A pending store that the piece does never goes wrong, and is pending no more.
pub fn flush_agrees()
    ensures { FlushAgrees }
{}

/// So do several, in order.
pub fn flushes_agree()
    ensures { FlushesAgree }
{}

/// A store that both sides do at once.
pub fn both_stores_agree()
    ensures { BothStoresAgree }
{}
