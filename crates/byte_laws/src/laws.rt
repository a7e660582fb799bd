// The laws, each on the contract of a small function: without its proof the crate does not pass.
ghost use Rattle.byte_laws.specs.Laws.{EightBytesAreTwoHalves, PartsSideBySideAreOne};

/// A number of eight bytes is that of the lower four, and 2^32 times that of the upper four.
pub fn eight_bytes_are_two_halves()
    ensures { EightBytesAreTwoHalves }
{}

/// A part that is written just before another: the two written at once, at any place.
pub fn parts_side_by_side_are_one()
    ensures { PartsSideBySideAreOne }
{}
