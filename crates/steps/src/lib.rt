//! The rule of each call on the wait table: the refusal that applies first, or the table that comes next.
#![tactic(auto, using(std::proofs::lemmas::Bool::Decides::nat_tests, waits::proofs::Tables::no_ring), unfolding(book::specs::Calls::refusals))]

ghost use Rattle.std.specs.Prelude.{◌≡◌, ℕ, ◌<◌};
ghost use Rattle.waits.specs.declared.parts.Wait.TheVariants.{AtSemaphore};
ghost use Rattle.waits.specs.Waits.{doing};
ghost use Rattle.waits.specs.Changes.{taken, come, handed};
ghost use Rattle.waits.specs.Facts.{Present, Holds};
ghost use Rattle.waits.specs.Table.{waits_of};
ghost use Rattle.book.specs.declared.call.Call.TheVariants.{Task, Untask, Base, Sem, Unsem, Lock, Try, Unlock, Release};
ghost use Rattle.book.specs.Book.{first};
ghost use Rattle.book.specs.Calls.{in_use, has_condition};
ghost use Rattle.book.specs.Kernel.{row_levels};
ghost use Rattle.steps.specs.Judged.{Judged, nobody};
ghost use Rattle.steps.specs.Opening.{Opened};

use book::{Refusal, Row};
use inheritance::first;
use tasksets::contains;
use urgency::Urgency;
use waits::{Holder, Wait, WaitTable};

/// `task t`: t becomes present, and is ready.
pub fn task(table: &WaitTable, t: u32) -> Result<WaitTable, Refusal>
    ensures { Judged nobody (waits_of table.now) (Task t tt) result }
{
    if t > 63 {
        return Err(Refusal::Over63);
    }
    let None = table.task(t) else {
        return Err(Refusal::AlreadyThere);
    };
    Ok(table.with_task(t, Some(Wait::Ready)))
}

/// `untask t`: t becomes absent; it must be ready, hold no semaphore and help no condition.
pub fn untask(table: &WaitTable, t: u32) -> Result<WaitTable, Refusal>
    ensures { Judged nobody (waits_of table.now) (Untask t) result }
{
    if t > 63 {
        return Err(Refusal::Over63);
    }
    let Some(wait) = table.task(t) else {
        return Err(Refusal::NotDeclared);
    };
    let Wait::Ready = wait else {
        return Err(Refusal::CallerWaits);
    };
    if in_use(table, t) {
        return Err(Refusal::InUse);
    }
    Ok(table.with_task(t, None))
}

/// `base t`: the base of t may change; the waits stay.
pub fn base(table: &WaitTable, t: u32) -> Result<WaitTable, Refusal>
    ensures { Judged nobody (waits_of table.now) (Base t tt) result }
{
    if t > 63 {
        return Err(Refusal::Over63);
    }
    let Some(_) = table.task(t) else {
        return Err(Refusal::NotDeclared);
    };
    Ok(*table)
}

/// `sem s`: s becomes present, and is free.
pub fn sem(table: &WaitTable, s: u32) -> Result<WaitTable, Refusal>
    ensures { Judged nobody (waits_of table.now) (Sem s) result }
{
    if s > 63 {
        return Err(Refusal::Over63);
    }
    let None = table.semaphore(s) else {
        return Err(Refusal::AlreadyThere);
    };
    Ok(table.with_semaphore(s, Some(None)))
}

/// `unsem s`: s becomes absent; who waits there is ready without it, and no condition may belong to it.
pub fn unsem(table: &WaitTable, s: u32) -> Result<WaitTable, Refusal>
    ensures { Judged nobody (waits_of table.now) (Unsem s) result }
{
    if s > 63 {
        return Err(Refusal::Over63);
    }
    let Some(_) = table.semaphore(s) else {
        return Err(Refusal::NotDeclared);
    };
    if has_condition(table, s) {
        return Err(Refusal::InUse);
    }
    let awake = table.turned(Wait::AtSemaphore(s), Wait::Ready);
    Ok(awake.with_semaphore(s, None))
}

/// `lock t s`: t takes s if that is free; if another task holds it, t waits there.
pub fn lock(table: &WaitTable, t: u32, s: u32) -> Result<WaitTable, Refusal>
    ensures { Judged nobody (waits_of table.now) (Lock t s) result }
{
    match caller(table, t, s)? {
        None => Ok(take(table, t, s)),
        Some(h) if h == t => Err(Refusal::HoldsIt),
        Some(h) if contains(table.reached(h), t) => Err(Refusal::WouldRing),
        Some(_) => Ok(table.with_task(t, Some(Wait::AtSemaphore(s)))),
    }
}

/// `try t s`: t takes s if that is free, and never waits.
pub fn try_lock(table: &WaitTable, t: u32, s: u32) -> Result<WaitTable, Refusal>
    ensures { Judged nobody (waits_of table.now) (Try t s) result }
{
    match caller(table, t, s)? {
        None => Ok(take(table, t, s)),
        Some(h) if h == t => Err(Refusal::HoldsIt),
        Some(_) => Err(Refusal::HeldByOther),
    }
}

/// `unlock t s`: s goes to the first task waiting there by the levels in the rows; with none it is free.
pub fn unlock<U: Urgency>(
    table: &WaitTable,
    rows: &[Row<U>],
    t: u32,
    s: u32,
) -> Result<WaitTable, Refusal>
    ensures { Judged (first U.urgent (row_levels rows.now)) (waits_of table.now) (Unlock t s) result }
{
    match caller(table, t, s)? {
        Some(h) if h == t => Ok(hand_on(table, rows, s)),
        _ => Err(Refusal::NotHolder),
    }
}

/// `release t`: t waits no more; it is ready without its semaphore, or leaves its condition and comes to the condition's semaphore.
pub fn release(table: &WaitTable, t: u32) -> Result<WaitTable, Refusal>
    ensures { Judged nobody (waits_of table.now) (Release t) result }
{
    if t > 63 {
        return Err(Refusal::Over63);
    }
    let Some(wait) = table.task(t) else {
        return Err(Refusal::NotDeclared);
    };
    match wait {
        Wait::Ready => Err(Refusal::NotWaiting),
        Wait::AtSemaphore(_) => Ok(table.with_task(t, Some(Wait::Ready))),
        Wait::OnCondition(c) => {
            let Some(condition) = table.condition(c) else {
                return Err(Refusal::NotDeclared);
            };
            Ok(come(table, t, condition.semaphore))
        }
    }
}

/// The opening of every call by a ready task t on a semaphore s: who has s, or the refusal.
fn caller(table: &WaitTable, t: u32, s: u32) -> Result<Holder, Refusal>
    ensures { Opened (waits_of table.now) t s result }
{
    if t > 63 || s > 63 {
        return Err(Refusal::Over63);
    }
    let Some(wait) = table.task(t) else {
        return Err(Refusal::NotDeclared);
    };
    let Some(holder) = table.semaphore(s) else {
        return Err(Refusal::NotDeclared);
    };
    let Wait::Ready = wait else {
        return Err(Refusal::CallerWaits);
    };
    Ok(holder)
}

/// Task t is ready and holds semaphore s from now on.
fn take(table: &WaitTable, t: u32, s: u32) -> WaitTable
    requires task { Present (waits_of table.now) t }
    requires semaphore { s < 64 }
    ensures { waits_of result ≡ taken (waits_of table.now) t s }
{
    let ready = table.with_task(t, Some(Wait::Ready));
    ready.with_semaphore(s, Some(Some(t)))
}

/// Task t takes semaphore s if that is free, else it waits there.
fn come(table: &WaitTable, t: u32, s: u32) -> WaitTable
    requires task { Present (waits_of table.now) t }
    requires bare { (z : ℕ) → Holds (waits_of table.now) t z → ⊥ }
    ensures { waits_of result ≡ come (waits_of table.now) t s }
{
    match table.semaphore(s) {
        None => *table,
        Some(None) => take(table, t, s),
        Some(Some(_)) => table.with_task(t, Some(Wait::AtSemaphore(s))),
    }
}

/// Semaphore s goes to the first task waiting there by the levels in the rows, which becomes ready; with none it is free.
fn hand_on<U: Urgency>(table: &WaitTable, rows: &[Row<U>], s: u32) -> WaitTable
    requires { s < 64 }
    ensures { waits_of result ≡ handed (waits_of table.now) s (first U.urgent (row_levels rows.now) (doing (waits_of table.now) (AtSemaphore s))) }
{
    let queue = table.doing(Wait::AtSemaphore(s));
    match first(rows, queue) {
        None => table.with_semaphore(s, Some(None)),
        Some(u) => take(table, u, s),
    }
}

/// Whether task t holds a semaphore or helps a condition.
fn in_use(table: &WaitTable, t: u32) -> bool
    ensures { result ≡ in_use (waits_of table.now) t }
{
    table.held_by(t) != 0 || table.helped_by(t) != 0
}

/// Whether a condition belongs to semaphore s.
fn has_condition(table: &WaitTable, s: u32) -> bool
    ensures { result ≡ has_condition (waits_of table.now) s }
{
    table.belonging_to(s) != 0
}
