/// When a unit's answer goes out, once all of its requests are answered.
#[derive(Clone, Copy, Debug, PartialEq, Eq)]
pub enum Order {
    /// At once.
    AsAnswered,
    /// As soon as all units that came before it, and have an answer, are out.
    AsCame,
}
