// The lent tables' entries, in words.
// An error: code, depth, where the text stands, how long it is.
pub const ERROR_ENTRY: usize = 4;

// An attribute: which error, where the key stands and how long it is, the same of the value.
pub const ATTRIBUTE_ENTRY: usize = 5;
