/// Why a part of the grammar can't be read, or out of memory.
///
/// `At` counts the tokens from the wrong one to the end. So it has one meaning for a reader and for
/// the one that called it.
pub type Stop = dsl_tree::osc_base::Stop<usize>;
