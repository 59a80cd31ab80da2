// What a crash makes of bytes that weren't synced.

/// What stands in the places of the writes since the last sync, once a disk has crashed.
#[derive(Clone, Copy, Debug, PartialEq, Eq)]
pub enum Pick {
    /// What stood there before: no such write took place.
    Old,
    /// What they wrote, also where the write failed by its number.
    New,
    /// This byte; the disk is as long as with `New`.
    Filled(u8),
}
