//! Inheritance of urgency: the levels of all tasks, worked out over the task rows, and the first of a set by its level.
#![tactic(auto)]

ghost use Rattle.std.specs.Prelude.{◌≡◌, ℕ, not, ◌&&◌, ◌≢◌, slice_get};
ghost use Rattle.std.specs.Option.{option_map};
ghost use Rattle.urgency.specs.Order.{same};
ghost use Rattle.tasksets.specs.Sets.{has};
ghost use Rattle.waits.specs.Table.{waits_of};
ghost use Rattle.book.specs.Book.{most_below, better, first};
ghost use Rattle.book.specs.Kernel.{row_levels};
ghost use Rattle.inheritance.specs.Rows.{held, releveled, Settled};

use book::Row;
use tasksets::{TaskSet, contains, members, with};
use urgency::{Urgency, at_least, most_urgent, same_urgency};
use waits::WaitTable;

/// Row i, if there is one.
pub fn row<U: Urgency>(rows: &[Row<U>], i: u32) -> Option<Row<U>>
    ensures { result ≡ slice_get rows.now i }
{
    rows.get(i as usize).copied()
}

/// The level in row i, if there is such a row.
pub fn level_in<U: Urgency>(rows: &[Row<U>], i: u32) -> Option<U>
    ensures { result ≡ row_levels rows.now i }
{
    row(rows, i).map(|row| row.level)
}

/// The base of task i, if it is present.
pub fn base_in<U: Urgency>(table: &WaitTable, rows: &[Row<U>], i: u32) -> Option<U>
    ensures { result ≡ (held table.now rows.now).base i }
{
    table.task(i)?;
    row(rows, i).map(|row| row.base)
}

/// The most urgent base among the tasks of a set.
fn most<U: Urgency>(table: &WaitTable, rows: &[Row<U>], set: TaskSet) -> Option<U>
    ensures { result ≡ most_below U.urgent (held table.now rows.now).base 64 set }
{
    members(set).fold(None, |top, i| most_urgent(top, base_in(table, rows, i)))
}

/// Whether task t is of the set and its row holds another level than this one.
fn differs<U: Urgency>(rows: &[Row<U>], set: TaskSet, t: u32, level: Option<U>) -> bool
    ensures { result ≡ (has set t && not (same U.urgent (row_levels rows.now t) level)) }
{
    contains(set, t) && !same_urgency(level_in(rows, t), level)
}

/// Writes a level into row t, if task t is present.
fn put_level<U: Urgency>(table: &WaitTable, rows: &mut [Row<U>], t: u32, level: Option<U>)
    ensures here { slice_get rows.new t ≡ option_map (releveled ((waits_of table.now).tasks t) level) (slice_get rows.old t) }
    ensures others { (j : ℕ) → (j ≢ t) → slice_get rows.new j ≡ slice_get rows.old j }
{
    let at = t as usize;
    if at >= rows.len() {
        return;
    }
    let Some(level) = table.task(t).and(level) else {
        return;
    };
    rows[at].level = level;
}

/// Works out the levels of all tasks and writes them into the rows of those that are present; the answer is the tasks of `standing` whose level was another.
pub fn settle<U: Urgency>(table: &WaitTable, standing: TaskSet, rows: &mut [Row<U>]) -> TaskSet
    ensures { Settled U.urgent table.now standing rows.old rows.new result }
{
    let sets = table.leading();
    let mut changed: TaskSet = 0;
    for (t, leading) in (0..64u32).zip(&sets) {
        let level = most(table, rows, *leading);
        if differs(rows, standing, t, level) {
            changed = with(changed, t);
        }
        put_level(table, rows, t, level);
    }
    changed
}

/// The better of two tasks by the levels in their rows: the more urgent, and the earlier where they are equal.
fn better<U: Urgency>(rows: &[Row<U>], best: Option<u32>, i: u32) -> Option<u32>
    ensures { result ≡ better U.urgent (row_levels rows.now) best i }
{
    match best {
        Some(k) if at_least(level_in(rows, k), level_in(rows, i)) => best,
        _ => Some(i),
    }
}

/// The first of a set: the task with the most urgent level in its row, and the smallest number where levels are equal.
pub fn first<U: Urgency>(rows: &[Row<U>], set: TaskSet) -> Option<u32>
    ensures { result ≡ first U.urgent (row_levels rows.now) set }
{
    let mut best: Option<u32> = None;
    // A loop over the rows with index, rising: where levels are equal the smallest number stays.
    for i in 0..64u32 {
        if contains(set, i) {
            best = better(rows, best, i);
        }
    }
    best
}
