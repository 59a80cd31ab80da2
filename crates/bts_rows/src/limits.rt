// Limits of units.

/// The most open frames of a unit.
pub const FRAME_LIMIT: u32 = 8;
