// The ranges of the numbers of an answer's text. The dimension and the degrees have the limit of a curve's dimension.

/// The most points that an answer names or has a line of.
pub const MAX_POINTS: u32 = 256;

/// The greatest delta of a point.
pub const MAX_DELTA: u32 = 64;

/// The greatest power of the denominator.
pub const MAX_POWER: u32 = 64;
