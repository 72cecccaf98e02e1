// The replies that are the same each time, byte for byte those of specs/Texts.

/// It is done.
pub const OK_REPLY: &[u8] = b"ok\n";

/// The words behind a command are not as it has them.
pub const ARGUMENTS_REPLY: &[u8] = b"error 03 arguments\n";

/// There is no model.
pub const NO_MODEL_REPLY: &[u8] = b"error 04 no model\n";

/// There is no answer of a search that went to its end.
pub const NO_ANSWER_REPLY: &[u8] = b"error 13 no finished answer\n";

/// The store failed, or has no such file.
pub const STORE_REPLY: &[u8] = b"error 20 store\n";

/// The file is longer than one that is read or written.
pub const FILE_TOO_LONG_REPLY: &[u8] = b"error 21 file too long\n";

/// There was no memory.
pub const MEMORY_REPLY: &[u8] = b"error 90 memory\n";
