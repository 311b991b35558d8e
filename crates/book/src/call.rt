ghost use Rattle.std.specs.Prelude.{◌≡◌, None, Err};
ghost use Rattle.book.specs.declared.refusal.Refusal.TheVariants.{FewRows};

use super::refusal::Refusal;
use tasksets::TaskSet;

/// A call on a kernel, with its arguments.
#[derive(Clone, Copy, Debug, PartialEq, Eq)]
pub enum Call<U> {
    Task(u32, U),
    Untask(u32),
    Base(u32, U),
    Sem(u32),
    Unsem(u32),
    Lock(u32, u32),
    Try(u32, u32),
    Unlock(u32, u32),
    Release(u32),
}

/// What a call answers: whether its caller is left waiting, the woken tasks and the changed tasks, as a flag and two masks; or the refusal.
pub type Reply = Result<(bool, TaskSet, TaskSet), Refusal>;

/// A call of a run, and what came of it: the reply, and the task that runs after it.
#[derive(Clone, Copy, Debug, PartialEq, Eq)]
pub struct LogEntry<U> {
    pub call: Call<U>,
    pub reply: Reply,
    pub running: Option<u32>,
}

impl<U> LogEntry<U> {
    /// A call that is yet to be made: a run writes over its reply and its running task.
    pub fn new(call: Call<U>) -> LogEntry<U>
        ensures { (result.call ≡ call) × (result.reply ≡ Err FewRows) × (result.running ≡ None) }
    {
        LogEntry {
            call,
            reply: Err(Refusal::FewRows),
            running: None,
        }
    }
}
