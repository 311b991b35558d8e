/// A task row: the base of a task, and its level.
#[derive(Clone, Copy, Debug, PartialEq, Eq)]
pub struct Row<U> {
    pub base: U,
    pub level: U,
}
