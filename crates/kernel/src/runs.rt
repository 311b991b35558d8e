//! Runs of calls.
ghost use Rattle.std.specs.Prelude.{◌≡◌};
ghost use Rattle.book.specs.Kernel.{calls, Run};
ghost use Rattle.book.specs.Laws.{Lawful};
ghost use Rattle.kernel.specs.Held.{state_of};

use super::Kernel;
use book::{LogEntry, Row};
use urgency::Urgency;

/// Opens a kernel over any rows and makes the calls of the log in turn, noting the reply and the running task after each.
pub fn run<'a, U: Urgency>(rows: &'a mut [Row<U>], log: &mut [LogEntry<U>]) -> Kernel<'a, U>
    ensures run { Run U.urgent rows.old log.new (state_of result) }
    ensures calls { calls log.new ≡ calls log.old }
    ensures lawful { Lawful U.urgent }
    ensures named { result.rows.ghost_name ≡ rows.entry.ghost_name }
{
    let mut kernel = Kernel::open(rows);
    for entry in log.iter_mut() {
        entry.reply = kernel.make(entry.call);
        entry.running = kernel.running();
    }
    kernel
}
