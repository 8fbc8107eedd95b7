/// The most bytes of a name of a native, a public function or a tag; the least are 1.
pub const NAME_LIMIT: usize = 31;

/// The most bytes of all these names together.
pub const NAMES_LIMIT: usize = 1_048_576;
