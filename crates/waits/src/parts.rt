use tasksets::TaskSet;

/// What a present task does: it is ready, or waits at a semaphore or on a condition.
#[derive(Clone, Copy, Debug, PartialEq, Eq)]
pub enum Wait {
    Ready,
    AtSemaphore(u32),
    OnCondition(u32),
}

/// Who has a semaphore: one task, or nobody.
pub type Holder = Option<u32>;

/// A condition: the semaphore it belongs to for life, and the set of its helpers.
#[derive(Clone, Copy, Debug, PartialEq, Eq)]
pub struct Condition {
    pub semaphore: u32,
    pub helpers: TaskSet,
}
