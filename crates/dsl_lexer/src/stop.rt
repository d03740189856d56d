use osc_base::{Fault, Stop};

/// Why a file has no tokens: the bytes can't be cut into tokens, and this is the first fault; or out of
/// memory.
pub type LexStop = Stop<Fault>;
