use osc_base::Text;

/// Why a text gives no run.
#[derive(Debug, PartialEq, Eq, Drop)]
pub enum RunStop {
    /// The bytes aren't UTF-8, or they are no JSON text.
    BadJson,
    /// The JSON isn't of a run's shape. This is the JSON pointer of the first place that differs.
    BadShape(Text),
    /// Out of memory.
    Memory,
}
