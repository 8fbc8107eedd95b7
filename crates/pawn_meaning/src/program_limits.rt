/// The most cells of all objects, offsets and one for each automaton among them.
pub const DATA_LIMIT: u64 = 4_194_304;

/// The most cells of locals on one path of blocks.
pub const LOCALS_LIMIT: u64 = 1_048_576;

/// The greatest weight of a program.
pub const WEIGHT_LIMIT: u64 = 4_194_304;

/// The most cells for heap and stack.
pub const DYNAMIC_LIMIT: i32 = 16_777_216;

/// The weight of a place, an array, an expression, an argument or a statement.
pub const NODE_WEIGHT: u64 = 40;

/// The weight of a value of a case, and that of a pair of a state and a body.
pub const PAIR_WEIGHT: u64 = 2;

/// The weight of a function's route, without its pairs.
pub const ROUTE_WEIGHT: u64 = 10;
