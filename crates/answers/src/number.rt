// The numbers given back that tell no reason (document 01, "Numbers given back"); every other number is a reason's, in reasons.rt.
// specs/GivenBack.antt has both by name, include/knotsaffron.h for C.

// Done.
pub const DONE: u64 = 0;

// No room.
pub const NO_ROOM: u64 = 8;
