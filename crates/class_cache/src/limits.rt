//! How much a cache keeps, and when. Each limit stands here alone. Members are those of chains and cochains, four bytes each.

/// The most members of all that a cache keeps. That is about 16 MB, so that sixteen callers with a cache each stay below 300 MB whatever
/// they ask. The lists of essential simplices, which have one id for each simplex at the most, come on top.
pub const MOST_MEMBERS: usize = 4_000_000;

/// What a chain takes in a list besides its members, told in members: about 32 bytes.
pub const MEMBERS_OF_A_ROW: usize = 8;

/// The most canonical cocycles of a degree that are found by a pass over the model each; then all are found together, in the time of f of
/// each simplex.
pub const MOST_SINGLE_PASSES: u32 = 16;

/// For each simplex of the complex, the most members of the cycles that are kept of a degree: a class word goes through them all, and
/// through more of them it takes longer than by a pass over the model.
pub const MOST_CYCLE_MEMBERS_OF_A_SIMPLEX: usize = 4;

/// The passes over the model that a class word takes without cycles.
pub const PASSES_OF_A_WORD: usize = 2;

/// The most simplices by which a complex may have grown where its cache grows with it. With more of them f of each may take longer than it
/// spares, since a question finds what it needs in one pass over the model.
pub const MOST_NEW_SIMPLICES: u32 = 256;

/// The most classes that may have been born since, where the cycles grow: each takes a pass over the model.
pub const MOST_NEW_CYCLES: usize = 4;

/// The most classes of a complex of which all canonical cocycles are found before a question about all of them: each may take a pass.
pub const MOST_CLASSES: u32 = 64;

/// About how many members of a cycle are gone through in the time of a binary search in it.
pub const MEMBERS_OF_A_SEARCH: usize = 16;

/// About how many places of a list of marks are cleared in the time in which one member is gone through.
pub const PLACES_OF_A_MEMBER: usize = 32;
