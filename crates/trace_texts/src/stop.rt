use osc_base::Text;

/// Why a text gives no recording.
#[derive(Debug, PartialEq, Eq, Drop)]
pub enum TracesStop {
    /// The bytes aren't UTF-8, or they are no JSON text.
    BadJson,
    /// The JSON isn't of a recording's shape. This is the JSON pointer of the first place that differs.
    BadShape(Text),
    /// Out of memory.
    Memory,
}
