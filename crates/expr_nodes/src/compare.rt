/// How a relation compares two values. Only numbers have an order.
#[derive(Debug, Clone, Copy, PartialEq, Eq)]
pub enum Compare {
    Equal,
    Differ,
    Below,
    AtMost,
    Above,
    AtLeast,
}
