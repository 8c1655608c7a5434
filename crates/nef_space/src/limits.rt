//! The limits that code names, as machine numbers.

/// Half the length of the frame's sides: the frame is the open cube `|x|, |y|, |z| < HALF_SIDE`.
pub const HALF_SIDE: i64 = 2048;

/// The greatest size of a, b and c of a plane `a x + b y + c z + d = 0`.
pub const NORMAL_LIMIT: u64 = 2048;

/// The greatest size of d of a plane `a x + b y + c z + d = 0`.
pub const OFFSET_LIMIT: u64 = 4_194_304;

/// The greatest size of x, y and z of a point that a script asks for.
pub const QUERY_LIMIT: u64 = 1 << 43;

/// The greatest w of a point that a script asks for.
pub const QUERY_WEIGHT_LIMIT: u64 = 1 << 32;

/// The greatest size of x, y and z of the point that a script's ray starts from.
pub const RAY_LIMIT: u64 = 1 << 21;

/// The greatest w of the point that a script's ray starts from.
pub const RAY_WEIGHT_LIMIT: u64 = 1 << 10;

/// The greatest size of the numbers of the direction of a script's ray.
pub const RAY_ENTRY_LIMIT: u64 = 1 << 10;

/// The first number of the upward direction `(UP_X, UP_Y, 1)`.
pub const UP_X: i64 = 1 << 26;

/// The second number of the upward direction `(UP_X, UP_Y, 1)`.
pub const UP_Y: i64 = 1 << 13;

/// How often the axis of a plane goes into its second direction.
pub const AXIS_FACTOR: i64 = 1 << 24;

/// How many boxes the generated script has at most.
pub const MOST_STAIRS: u32 = 32;
