//! A day of a telematics unit under grades: each call, what came of it, and who runs after it.
#![tactic(auto)]

ghost use Rattle.std.specs.Prelude.{◌≡◌, ◌≤◌, map, replicate, MatchOption};
ghost use Rattle.book.specs.declared.call.Call.TheVariants.{Task, Untask, Base};
ghost use Rattle.book.specs.Kernel.{calls};
ghost use Rattle.levels.specs.Values.{in_values, row_in_values};
ghost use Rattle.levels.specs.Day.{day_calls, name_of};

use book::{Call, LogEntry, Row};
use kernel::run;
use std::{fmt, io};
use tasksets::{TaskSet, members};
use urgency::Grade;

const DOOR_SENSOR: u32 = 0;

const COLD_BOX_LOGGER: u32 = 1;

const MAP_DOWNLOAD: u32 = 2;

const SLEEP: u32 = 63;

/// `task t v` under the grade of a value, if there is one.
fn task(t: u32, value: u32) -> Option<LogEntry<Grade>>
    ensures { MatchOption result (1 ≤ value → value ≤ 255 → ⊥) (λ e. in_values e.call ≡ Task t value) }
{
    let grade = Grade::new(value)?;
    Some(LogEntry::new(Call::Task(t, grade)))
}

/// `untask t`.
fn untask(t: u32) -> LogEntry<Grade>
    ensures { in_values result.call ≡ Untask t }
{
    LogEntry::new(Call::Untask(t))
}

/// `base t v` under the grade of a value, if there is one.
fn base(t: u32, value: u32) -> Option<LogEntry<Grade>>
    ensures { MatchOption result (1 ≤ value → value ≤ 255 → ⊥) (λ e. in_values e.call ≡ Base t value) }
{
    let grade = Grade::new(value)?;
    Some(LogEntry::new(Call::Base(t, grade)))
}

/// The calls of the day.
fn day() -> Option<[LogEntry<Grade>; 10]>
    ensures { MatchOption result ⊥ (λ log. map in_values (calls log) ≡ day_calls) }
{
    Some([
        base(COLD_BOX_LOGGER, 60)?,
        task(SLEEP, 255)?,
        task(COLD_BOX_LOGGER, 60)?,
        task(MAP_DOWNLOAD, 120)?,
        task(DOOR_SENSOR, 10)?,
        task(DOOR_SENSOR, 10)?,
        base(COLD_BOX_LOGGER, 5)?,
        task(64, 1)?,
        untask(MAP_DOWNLOAD),
        base(COLD_BOX_LOGGER, 60)?,
    ])
}

/// Rows for 64 tasks, all of the least urgency.
fn unused_rows() -> Option<[Row<Grade>; 64]>
    ensures { MatchOption result ⊥ (λ rows. map row_in_values rows ≡ replicate 64 (record { base = 255; level = 255 })) }
{
    let least = Grade::new(255)?;
    Some([Row {
        base: least,
        level: least,
    }; 64])
}

/// The name of a task.
fn name(t: u32) -> &'static str
    ensures { result.now ≡ name_of t }
{
    match t {
        DOOR_SENSOR => "door sensor",
        COLD_BOX_LOGGER => "cold-box logger",
        MAP_DOWNLOAD => "map download",
        SLEEP => "sleep task",
        _ => "unnamed task",
    }
}

/// A call as it is written.
#[derive(Drop)]
struct Called(Call<Grade>);

impl fmt::Display for Called {
    fn fmt<W: fmt::Write>(&self, f: &mut fmt::Formatter<W>) -> fmt::Result {
        match self.0 {
            Call::Task(t, v) => write!(f, "task {t} {}", v.value()),
            Call::Untask(t) => write!(f, "untask {t}"),
            Call::Base(t, v) => write!(f, "base {t} {}", v.value()),
            Call::Sem(s) => write!(f, "sem {s}"),
            Call::Unsem(s) => write!(f, "unsem {s}"),
            Call::Lock(t, s) => write!(f, "lock {t} {s}"),
            Call::Try(t, s) => write!(f, "try {t} {s}"),
            Call::Unlock(t, s) => write!(f, "unlock {t} {s}"),
            Call::Release(t) => write!(f, "release {t}"),
        }
    }
}

/// The members of a set, in parentheses.
#[derive(Drop)]
struct Members(TaskSet);

impl fmt::Display for Members {
    fn fmt<W: fmt::Write>(&self, f: &mut fmt::Formatter<W>) -> fmt::Result {
        write!(f, "(")?;
        let mut rest = members(self.0);
        if let Some(t) = rest.next() {
            write!(f, "{t}")?;
        }
        for t in rest {
            write!(f, " {t}")?;
        }
        write!(f, ")")
    }
}

/// A call, what came of it, and who runs after it.
#[derive(Drop)]
struct Line(LogEntry<Grade>);

impl fmt::Display for Line {
    fn fmt<W: fmt::Write>(&self, f: &mut fmt::Formatter<W>) -> fmt::Result {
        write!(f, "{}: ", Called(self.0.call))?;
        match self.0.reply {
            Ok((_, woken, changed)) => {
                let woken = Members(woken);
                let changed = Members(changed);
                write!(f, "ok, woken {woken}, changed {changed}")?
            }
            Err(refusal) => write!(f, "refused, {}", refusal.number())?,
        }
        match self.0.running {
            Some(t) => write!(f, "; {t} runs, the {}", name(t)),
            None => write!(f, "; none runs"),
        }
    }
}

fn main(rt: HostRuntime) -> io::Result<()> {
    let mut rows = unused_rows().unwrap();
    let mut log = day().unwrap();
    let _kernel = run(&mut rows, &mut log);
    for entry in log {
        println!(&rt; "{}", Line(entry))?;
    }
    Ok(())
}
