//! The kernel: tasks and their levels over lent rows; each call, each question, and runs of calls.
#![tactic(auto)]

ghost use Rattle.std.specs.Prelude.{◌≡◌, ◌<◌, ◌≤◌, length, Ok, Err};
ghost use Rattle.std.specs.Option.{option_and, option_map};
ghost use Rattle.tasksets.specs.Sets.{members_below};
ghost use Rattle.waits.specs.Table.{waits_of};
ghost use Rattle.book.specs.declared.call.Call.TheVariants.{Task, Untask, Base, Sem, Unsem, Lock, Try, Unlock, Release};
ghost use Rattle.book.specs.declared.refusal.Refusal.TheVariants.{FewRows, Over63};
ghost use Rattle.book.specs.Book.{level, first, running};
ghost use Rattle.book.specs.Runs.{left_waiting};
ghost use Rattle.book.specs.Kernel.{book_of, levels_of, running_of, opened, Right};
ghost use Rattle.inheritance.specs.Rows.{both};
ghost use Rattle.steps.specs.Judged.{Judged};
ghost use Rattle.kernel.specs.Answers.{answered, waiters_at};
ghost use Rattle.kernel.specs.Held.{state_of, MakesCall};
ghost use Rattle.kernel.specs.Inner.{asked, Within, noted, Accepted};

mod runs;

use book::{Call, Refusal, Reply, Row};
use inheritance::{base_in, level_in, settle};
pub use runs::run;
use tasksets::{TaskSet, size};
use urgency::Urgency;
use waits::{Holder, Wait, WaitTable};

/// A kernel over lent task rows, which are a part of it until its end. Row k holds the base and the level of task k.
#[derive(Drop)]
pub struct Kernel<'a, U: Urgency> {
    rows: &'a mut [Row<U>],
    table: WaitTable,
}

impl<'a, U: Urgency> Kernel<'a, U> {
    /// Opens a kernel over any rows, and writes none of them. With fewer than 64 it refuses every call.
    pub fn open(rows: &'a mut [Row<U>]) -> Kernel<'a, U>
        ensures opened { state_of result ≡ opened rows.old }
        ensures right { Right U.urgent (state_of result) }
        ensures named { result.rows.ghost_name ≡ rows.entry.ghost_name }
    {
        let table = WaitTable::empty();
        Kernel { rows, table }
    }

    // The table after a call's step, by the rule of the call.
    fn next(&self, call: Call<U>) -> Result<WaitTable, Refusal>
        ensures { Judged (first U.urgent (levels_of (state_of self.now))) (waits_of self.now.table) (asked call) result }
    {
        match call {
            Call::Task(t, _) => steps::task(&self.table, t),
            Call::Untask(t) => steps::untask(&self.table, t),
            Call::Base(t, _) => steps::base(&self.table, t),
            Call::Sem(s) => steps::sem(&self.table, s),
            Call::Unsem(s) => steps::unsem(&self.table, s),
            Call::Lock(t, s) => steps::lock(&self.table, t, s),
            Call::Try(t, s) => steps::try_lock(&self.table, t, s),
            Call::Unlock(t, s) => steps::unlock(&self.table, self.rows, t, s),
            Call::Release(t) => steps::release(&self.table, t),
        }
    }

    /// Makes any call.
    pub fn make(&mut self, call: Call<U>) -> Reply
        ensures { MakesCall U.urgent self.old call result self.new }
    {
        if self.rows.len() < 64 {
            return Err(Refusal::FewRows);
        }
        let next = self.next(call)?;
        let waiting = left_waiting(&next, call);
        let Kernel { rows, table } = self;
        note_base(rows, call);
        Ok(accept(table, rows, next, waiting))
    }

    /// `task t v`: t becomes present and ready, with base v.
    pub fn task(&mut self, t: u32, v: U) -> Reply
        ensures { MakesCall U.urgent self.old (Task t v) result self.new }
    {
        self.make(Call::Task(t, v))
    }

    /// `untask t`: t becomes absent; its row keeps what it holds.
    pub fn untask(&mut self, t: u32) -> Reply
        ensures { MakesCall U.urgent self.old (Untask t) result self.new }
    {
        self.make(Call::Untask(t))
    }

    /// `base t v`: the base of t is v from now on.
    pub fn base(&mut self, t: u32, v: U) -> Reply
        ensures { MakesCall U.urgent self.old (Base t v) result self.new }
    {
        self.make(Call::Base(t, v))
    }

    /// `sem s`: s becomes present, and is free.
    pub fn sem(&mut self, s: u32) -> Reply
        ensures { MakesCall U.urgent self.old (Sem s) result self.new }
    {
        self.make(Call::Sem(s))
    }

    /// `unsem s`: s becomes absent; tasks waiting there become ready without it, and a holder loses it.
    pub fn unsem(&mut self, s: u32) -> Reply
        ensures { MakesCall U.urgent self.old (Unsem s) result self.new }
    {
        self.make(Call::Unsem(s))
    }

    /// `lock t s`: t takes s if that is free; if another task holds it, t waits there.
    pub fn lock(&mut self, t: u32, s: u32) -> Reply
        ensures { MakesCall U.urgent self.old (Lock t s) result self.new }
    {
        self.make(Call::Lock(t, s))
    }

    /// `try t s`: t takes s if that is free, and never waits.
    pub fn try_lock(&mut self, t: u32, s: u32) -> Reply
        ensures { MakesCall U.urgent self.old (Try t s) result self.new }
    {
        self.make(Call::Try(t, s))
    }

    /// `unlock t s`: s goes to the first task waiting there, which becomes ready; with none it is free.
    pub fn unlock(&mut self, t: u32, s: u32) -> Reply
        ensures { MakesCall U.urgent self.old (Unlock t s) result self.new }
    {
        self.make(Call::Unlock(t, s))
    }

    /// `release t`: t waits no more; it is ready without the semaphore at which it waited, or leaves its condition and comes to the condition's semaphore.
    pub fn release(&mut self, t: u32) -> Reply
        ensures { MakesCall U.urgent self.old (Release t) result self.new }
    {
        self.make(Call::Release(t))
    }

    /// The base of task t.
    pub fn base_of(&self, t: u32) -> Result<U, Refusal>
        ensures { result ≡ answered t ((book_of (state_of self.now)).base t) }
    {
        check_number(t)?;
        base_in(&self.table, self.rows, t).ok_or(Refusal::NotDeclared)
    }

    /// The level of task t: its urgency at present.
    pub fn level_of(&self, t: u32) -> Result<U, Refusal>
        ensures held { result ≡ answered t (option_and ((waits_of self.now.table).tasks t) (levels_of (state_of self.now) t)) }
        ensures book { Right U.urgent (state_of self.now) → result ≡ answered t (option_and ((waits_of self.now.table).tasks t) (level U.urgent (book_of (state_of self.now)) t)) }
    {
        check_number(t)?;
        let level = self.table.task(t).and_then(|_| level_in(self.rows, t));
        level.ok_or(Refusal::NotDeclared)
    }

    /// The state of task t: ready, or where it waits.
    pub fn state_of(&self, t: u32) -> Result<Wait, Refusal>
        ensures { result ≡ answered t ((waits_of self.now.table).tasks t) }
    {
        check_number(t)?;
        self.table.task(t).ok_or(Refusal::NotDeclared)
    }

    /// The holder of semaphore s: a task, or nobody.
    pub fn holder_of(&self, s: u32) -> Result<Holder, Refusal>
        ensures { result ≡ answered s ((waits_of self.now.table).semaphores s) }
    {
        check_number(s)?;
        self.table.semaphore(s).ok_or(Refusal::NotDeclared)
    }

    /// The tasks that wait at semaphore s.
    pub fn waiters_at(&self, s: u32) -> Result<TaskSet, Refusal>
        ensures { result ≡ answered s (waiters_at (waits_of self.now.table) s) }
    {
        let waiters = |_| self.table.doing(Wait::AtSemaphore(s));
        self.holder_of(s).map(waiters)
    }

    /// How many tasks wait at semaphore s.
    pub fn count_at(&self, s: u32) -> Result<u32, Refusal>
        ensures { result ≡ answered s (option_map (members_below 64) (waiters_at (waits_of self.now.table) s)) }
    {
        self.waiters_at(s).map(size)
    }

    /// The running task: the first of the ready tasks.
    pub fn running(&self) -> Option<u32>
        ensures held { result ≡ running_of U.urgent (state_of self.now) }
        ensures book { Right U.urgent (state_of self.now) → result ≡ running U.urgent (book_of (state_of self.now)) }
    {
        let ready = self.table.doing(Wait::Ready);
        inheritance::first(self.rows, ready)
    }
}

// Whether a call that leaves the table `next` leaves its caller waiting.
fn left_waiting<U: Urgency>(next: &WaitTable, call: Call<U>) -> bool
    ensures { result ≡ left_waiting (waits_of next.now) call }
{
    match call {
        Call::Lock(t, _) => next.is_waiting(t),
        _ => false,
    }
}

// Writes the base that a call gives into its row; the level of a new task is worked out with the others.
fn note_base<U: Urgency>(rows: &mut [Row<U>], call: Call<U>)
    requires { Within (length rows.old) call }
    ensures { rows.new ≡ noted rows.old call }
{
    match call {
        Call::Task(t, v) => rows[t as usize] = Row { base: v, level: v },
        Call::Base(t, v) => rows[t as usize].base = v,
        _ => {}
    }
}

// The end of every accepted call: the next table is written whole, the levels are worked out, and the answer is told.
fn accept<U: Urgency>(
    table: &mut WaitTable,
    rows: &mut [Row<U>],
    next: WaitTable,
    waiting: bool,
) -> (bool, TaskSet, TaskSet)
    requires { 64 ≤ length rows.old }
    ensures { Accepted U.urgent (both table.old rows.old) (waits_of next) waiting result (both table.new rows.new) }
{
    let woken = table.waiting() & next.doing(Wait::Ready);
    let standing = table.present() & next.present();
    let changed = settle(&next, standing, rows);
    *table = next;
    (waiting, woken, changed)
}

// Refuses a number that no task, semaphore or condition has.
fn check_number(n: u32) -> Result<(), Refusal>
    ensures { elim result [ Ok _ ↦ n ≤ 63 | Err k ↦ (k ≡ Over63) × (63 < n) ] }
{
    if n > 63 {
        return Err(Refusal::Over63);
    }
    Ok(())
}

/// Whether there are rows enough for a kernel: told before opening.
pub fn check_rows<U: Urgency>(rows: &[Row<U>]) -> Result<(), Refusal>
    ensures { elim result [ Ok _ ↦ 64 ≤ length rows.now | Err k ↦ (k ≡ FewRows) × (length rows.now < 64) ] }
{
    if rows.len() < 64 {
        return Err(Refusal::FewRows);
    }
    Ok(())
}
