//! The statuses of calls.

/// Done, or found.
pub const DONE: u32 = 0;

/// There is no such thing.
pub const ABSENT: u32 = 1;

/// The structure has no such query, change or list.
pub const UNKNOWN: u32 = 2;

/// The handle is empty.
pub const VACANT: u32 = 3;

/// The arguments are refused: no structure can be made of them, no node opens there, or the number of bytes is
/// wrong.
pub const REFUSED: u32 = 4;

/// The handle already has a structure.
pub const OCCUPIED: u32 = 5;

/// The allocator refused a request, or the list would be too long.
pub const NO_MEMORY: u32 = 6;

/// The structure has another owner, so it can't change.
pub const SHARED: u32 = 7;

/// A saved form has fewer bytes than a head and a sum have, or than the head gives.
pub const TOO_SHORT: u32 = 8;

/// The bytes do not begin as a saved form does.
pub const NOT_OURS: u32 = 9;

/// The saved form has another version.
pub const OTHER_VERSION: u32 = 10;

/// The bytes are the saved form of another kind of structure.
pub const OTHER_KIND: u32 = 11;

/// No structure of the kind has the length in a saved form, or there are more bytes.
pub const BAD_LENGTH: u32 = 12;

/// The checksum of a saved form is not that of its words.
pub const BAD_SUM: u32 = 13;

/// The last word of a saved form has a one past the end of the list.
pub const BAD_PADDING: u32 = 14;

/// The numbers of a saved form do not ascend as the kind requires.
pub const NOT_ASCENDING: u32 = 15;

/// No text has the column and the rows of a saved form.
pub const NOT_A_TEXT: u32 = 16;
