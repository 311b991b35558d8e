//! The wait table: what is present, who waits for what, and the tasks along a chain.
#![tactic(auto)]

ghost use Rattle.std.specs.Prelude.{◌≡◌, ℕ, ◌<◌, ◌&&◌, ◌||◌, Some, None, is_some, ◌==◌, slice_index, slice_index_or};
ghost use Rattle.tasksets.specs.Sets.{Has, has, those};
ghost use Rattle.waits.specs.Chain.{Reached};
ghost use Rattle.waits.specs.Waits.{waits, nothing, awaited, Awaits, waiting, doing, held_by, helped_by, belongs, with_task};
ghost use Rattle.waits.specs.Changes.{with_semaphore, turned};
ghost use Rattle.waits.specs.Reach.{leading};
ghost use Rattle.waits.specs.Facts.{Facts};
ghost use Rattle.waits.specs.Table.{waits_of};

mod parts;
mod table;

pub use parts::{Condition, Holder, Wait};
pub use table::WaitTable;
use tasksets::{TaskSet, contains, members, smallest, those, with};

impl WaitTable {
    /// The table that three arrays make.
    fn of(
        tasks: [Option<Wait>; 64],
        semaphores: [Option<Holder>; 64],
        conditions: [Option<Condition>; 64],
    ) -> WaitTable
        requires { Facts (waits tasks semaphores conditions) }
        ensures { waits_of result ≡ waits tasks semaphores conditions }
    {
        WaitTable {
            tasks,
            semaphores,
            conditions,
        }
    }

    /// The table in which nothing is present.
    pub fn empty() -> WaitTable
        ensures { waits_of result ≡ nothing }
    {
        WaitTable::of([None; 64], [None; 64], [None; 64])
    }

    /// What task t does, if it is present.
    pub fn task(&self, t: u32) -> Option<Wait>
        ensures { result ≡ (waits_of self.now).tasks t }
    {
        entry(&self.tasks, t)
    }

    /// Who has semaphore s, if it is present.
    pub fn semaphore(&self, s: u32) -> Option<Holder>
        ensures { result ≡ (waits_of self.now).semaphores s }
    {
        entry(&self.semaphores, s)
    }

    /// Condition c, if it is present.
    pub fn condition(&self, c: u32) -> Option<Condition>
        ensures { result ≡ (waits_of self.now).conditions c }
    {
        entry(&self.conditions, c)
    }

    /// The table in which task t does `wait` from now on, or is absent. Whoever makes a table owes the facts that are a part of its type.
    pub fn with_task(self, t: u32, wait: Option<Wait>) -> WaitTable
        requires low { t < 64 }
        requires facts { Facts (with_task (waits_of self) t wait) }
        ensures { waits_of result ≡ with_task (waits_of self) t wait }
    {
        let mut tasks = self.tasks;
        tasks[t as usize] = wait;
        WaitTable::of(tasks, self.semaphores, self.conditions)
    }

    /// The table in which semaphore s is free or has this holder from now on, or is absent. Whoever makes a table owes the facts that are a part of its type.
    pub fn with_semaphore(self, s: u32, holder: Option<Holder>) -> WaitTable
        requires low { s < 64 }
        requires facts { Facts (with_semaphore (waits_of self) s holder) }
        ensures { waits_of result ≡ with_semaphore (waits_of self) s holder }
    {
        let mut semaphores = self.semaphores;
        semaphores[s as usize] = holder;
        WaitTable::of(self.tasks, semaphores, self.conditions)
    }

    /// The table in which whoever did `from` does `to` from now on. Whoever makes a table owes the facts that are a part of its type.
    pub fn turned(self, from: Wait, to: Wait) -> WaitTable
        requires { Facts (turned (waits_of self) from to) }
        ensures { waits_of result ≡ turned (waits_of self) from to }
    {
        let mut tasks = self.tasks;
        for task in tasks.iter_mut() {
            if *task == Some(from) {
                *task = Some(to);
            }
        }
        WaitTable::of(tasks, self.semaphores, self.conditions)
    }

    /// The tasks that task i awaits: at a semaphore its holder, on a condition each helper, and none when it is ready.
    pub fn awaited(&self, i: u32) -> TaskSet
        ensures { result ≡ awaited (waits_of self.now) i }
    {
        match self.task(i) {
            None | Some(Wait::Ready) => 0,
            Some(Wait::AtSemaphore(s)) => match self.semaphore(s).flatten() {
                None => 0,
                Some(h) => 1 << h,
            },
            Some(Wait::OnCondition(c)) => self
                .condition(c)
                .map_or(0, |condition| condition.helpers),
        }
    }

    /// The tasks to which a chain leads from task i, itself among them: each is taken once.
    pub fn reached(&self, i: u32) -> TaskSet
        ensures { Reached (Awaits (waits_of self.now)) i (Has result) }
    {
        let mut seen: TaskSet = 0;
        let mut todo = with(0, i);
        // A worklist: it grows while it is walked, so no iterator goes over it.
        while let Some(j) = smallest(todo) {
            seen = with(seen, j);
            todo = (todo | self.awaited(j)) & !seen;
        }
        seen
    }

    /// For each task, the tasks with a chain to it, itself among them. A task that awaits nobody costs one step, another its chains.
    pub fn leading(&self) -> [TaskSet; 64]
        ensures { (t j : ℕ) → t < 64 → j < 64 → has (slice_index result t) j ≡ has (leading (waits_of self.now) t) j }
    {
        let mut sets: [TaskSet; 64] = [0; 64];
        // By number: i is the member that goes into the sets.
        for i in 0..64u32 {
            let along = self.reached(i);
            add_to_each(&mut sets, along, i);
        }
        sets
    }

    /// Whether task t is present and not ready.
    pub fn is_waiting(&self, t: u32) -> bool
        ensures { result ≡ waiting (waits_of self.now) t }
    {
        self.task(t).is_some_and(|wait| wait != Wait::Ready)
    }

    /// The tasks that are present.
    pub fn present(&self) -> TaskSet
        ensures { result ≡ those (λ i. is_some ((waits_of self.now).tasks i)) }
    {
        those(|i| self.task(i).is_some())
    }

    /// The tasks that wait.
    pub fn waiting(&self) -> TaskSet
        ensures { result ≡ those (waiting (waits_of self.now)) }
    {
        those(|i| self.is_waiting(i))
    }

    /// The tasks that do `what`.
    pub fn doing(&self, what: Wait) -> TaskSet
        ensures { result ≡ doing (waits_of self.now) what }
    {
        those(|i| self.task(i) == Some(what))
    }

    /// The semaphores that task t holds.
    pub fn held_by(&self, t: u32) -> TaskSet
        ensures { result ≡ those (λ s. held_by t ((waits_of self.now).semaphores s)) }
    {
        those(|s| self.semaphore(s) == Some(Some(t)))
    }

    /// The conditions that task t helps.
    pub fn helped_by(&self, t: u32) -> TaskSet
        ensures { result ≡ those (λ c. helped_by t ((waits_of self.now).conditions c)) }
    {
        those(|c| {
            self.condition(c)
                .is_some_and(|condition| contains(condition.helpers, t))
        })
    }

    /// The conditions that belong to semaphore s.
    pub fn belonging_to(&self, s: u32) -> TaskSet
        ensures { result ≡ those (λ c. belongs s ((waits_of self.now).conditions c)) }
    {
        those(|c| {
            self.condition(c)
                .is_some_and(|condition| condition.semaphore == s)
        })
    }
}

/// Entry i, if there is one.
fn entry<T: Copy>(entries: &[Option<T>; 64], i: u32) -> Option<T>
    ensures { result ≡ slice_index_or entries.now i None }
{
    entries.get(i as usize).copied().flatten()
}

/// Adds i to the set of each member of `to`.
fn add_to_each(sets: &mut [TaskSet; 64], to: TaskSet, i: u32)
    ensures { (t j : ℕ) → t < 64 → j < 64 → has (slice_index sets.new t) j ≡ (has (slice_index sets.old t) j || (has to t && j == i)) }
{
    for t in members(to) {
        sets[t as usize] = with(sets[t as usize], i);
    }
}
