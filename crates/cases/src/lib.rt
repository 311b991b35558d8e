//! The calls, the questions and the running task at their edges.
#![tactic(auto)]

ghost use Rattle.std.specs.Prelude.{◌≡◌};
ghost use Rattle.std.proofs.Common.{ap};

#[cfg(test)]
mod tests {
    use book::{Call, Refusal, Row};
    use kernel::{Kernel, check_rows};
    use std::process::Abort;
    use std::test::Fail;
    use tasksets::TaskSet;
    use urgency::{Deadline, Grade, Urgency};
    use waits::Wait;

    // A reply, with a refusal as its number.
    type Plain = Result<(bool, TaskSet, TaskSet), u32>;

    // A call with the plain value of its urgency, its reply, and who runs after it.
    type Case<V = u32> = (Call<V>, Plain, Option<u32>);

    // The reply to a call that wakes nobody and changes no level.
    const DONE: Plain = Ok((false, 0, 0));

    // With 63 rows every call is refused, whatever else is wrong with it.
    const FEW_ROWS: [Case; 4] = [
        (Call::Task(0, 1), Err(3), None),
        (Call::Untask(0), Err(3), None),
        (Call::Base(0, 1), Err(3), None),
        (Call::Task(64, 1), Err(3), None),
    ];

    // A number over 63 is refused as such, though no such task is there.
    const REFUSALS: [Case; 13] = [
        (Call::Untask(63), Err(11), None),
        (Call::Base(63, 1), Err(11), None),
        (Call::Task(64, 1), Err(10), None),
        (Call::Untask(64), Err(10), None),
        (Call::Base(64, 1), Err(10), None),
        (Call::Task(4294967295, 1), Err(10), None),
        (Call::Task(63, 5), DONE, Some(63)),
        (Call::Task(63, 1), Err(12), Some(63)),
        (Call::Untask(62), Err(11), Some(63)),
        (Call::Base(62, 1), Err(11), Some(63)),
        (Call::Untask(63), DONE, None),
        (Call::Untask(63), Err(11), None),
        (Call::Base(63, 1), Err(11), None),
    ];

    // A number, and its base and level, or the refusal, where task 63 alone is there.
    const QUESTIONS: [(u32, Result<u32, u32>); 5] = [
        (63, Ok(6)),
        (64, Err(10)),
        (4294967295, Err(10)),
        (0, Err(11)),
        (62, Err(11)),
    ];

    // The smaller value runs, and at equal values the smaller number; the changed set has the bit of each changed task.
    const GRADES: [Case; 10] = [
        (Call::Task(5, 20), DONE, Some(5)),
        (Call::Task(3, 30), DONE, Some(5)),
        (Call::Task(9, 20), DONE, Some(5)),
        (Call::Task(4, 20), DONE, Some(4)),
        (Call::Base(3, 10), Ok((false, 0, 8)), Some(3)),
        (Call::Base(3, 10), DONE, Some(3)),
        (Call::Base(9, 255), Ok((false, 0, 512)), Some(3)),
        (Call::Untask(3), DONE, Some(4)),
        (Call::Task(3, 1), DONE, Some(3)),
        (Call::Base(4, 1), Ok((false, 0, 16)), Some(3)),
    ];

    // A task with its tick and class, and who runs after it came.
    const DEADLINES: [(u32, u32, u32, u32); 6] = [
        (3, 500, 1, 3),
        (5, 500, 2, 5),
        (4, 500, 2, 4),
        (6, 500, 2, 4),
        (8, 501, 3, 4),
        (7, 499, 0, 7),
    ];

    const ROWS: [Case; 7] = [
        (Call::Task(0, 3), DONE, Some(0)),
        (Call::Task(63, 4), DONE, Some(0)),
        (Call::Base(0, 5), Ok((false, 0, 1)), Some(63)),
        (Call::Task(64, 1), Err(10), Some(63)),
        (Call::Task(0, 1), Err(12), Some(63)),
        (Call::Untask(63), DONE, Some(0)),
        (Call::Untask(0), DONE, None),
    ];

    // In the tables below sets are written in binary: task 0 has the last digit.

    // The reply where the caller is left waiting, nobody is woken and no level changes.
    const WAITS: Plain = Ok((true, 0, 0));

    // With 63 rows every call on a semaphore is refused too.
    static FEW_ROWS_OF_SEMAPHORES: [Case; 8] = [
        (Call::Sem(0), Err(3), None),
        (Call::Sem(64), Err(3), None),
        (Call::Unsem(0), Err(3), None),
        (Call::Lock(0, 0), Err(3), None),
        (Call::Lock(64, 64), Err(3), None),
        (Call::Try(0, 0), Err(3), None),
        (Call::Unlock(0, 0), Err(3), None),
        (Call::Release(0), Err(3), None),
    ];

    // Levels rise, fall and rise again while tasks 0 and 63 are absent.
    static ROWS_OF_WAITS: [Case; 14] = [
        (Call::Task(0, 3), DONE, Some(0)),
        (Call::Task(63, 4), DONE, Some(0)),
        (Call::Base(0, 5), Ok((false, 0, 0b1)), Some(63)),
        (Call::Task(64, 1), Err(10), Some(63)),
        (Call::Task(0, 1), Err(12), Some(63)),
        (Call::Untask(63), DONE, Some(0)),
        (Call::Untask(0), DONE, None),
        (Call::Task(1, 20), DONE, Some(1)),
        (Call::Task(2, 30), DONE, Some(1)),
        (Call::Sem(63), DONE, Some(1)),
        (Call::Lock(2, 63), DONE, Some(1)),
        (Call::Lock(1, 63), Ok((true, 0, 0b100)), Some(2)),
        (Call::Release(1), Ok((false, 0b10, 0b100)), Some(1)),
        (Call::Lock(1, 63), Ok((true, 0, 0b100)), Some(2)),
    ];

    // Tasks 0, 1 and 2, and three semaphores, all free.
    static THREE: [Case; 6] = [
        (Call::Task(0, 10), DONE, Some(0)),
        (Call::Task(1, 20), DONE, Some(0)),
        (Call::Task(2, 30), DONE, Some(0)),
        (Call::Sem(0), DONE, Some(0)),
        (Call::Sem(1), DONE, Some(0)),
        (Call::Sem(2), DONE, Some(0)),
    ];

    // The tables up to `LENT` are parts of stories, and constants, since a static cannot refer to a static.

    // Task 2 holds 0 and 1; task 0 waits at 0 and task 1 at 1.
    const TWO_HELD: [Case; 4] = [
        (Call::Lock(2, 0), DONE, Some(0)),
        (Call::Try(2, 1), DONE, Some(0)),
        (Call::Lock(1, 1), Ok((true, 0, 0b100)), Some(0)),
        (Call::Lock(0, 0), Ok((true, 0, 0b100)), Some(2)),
    ];

    // Tasks 0 and 1 wait at what task 2 holds.
    const ONE_HELD: [Case; 3] = [
        (Call::Lock(2, 0), DONE, Some(0)),
        (Call::Lock(1, 0), Ok((true, 0, 0b100)), Some(0)),
        (Call::Lock(0, 0), Ok((true, 0, 0b100)), Some(2)),
    ];

    // Both are ready without the semaphore. Task 2 can end, since it holds nothing more, and one made anew is free.
    const ENDED: [Case; 5] = [
        (Call::Unsem(0), Ok((false, 0b11, 0b100)), Some(0)),
        (Call::Unlock(2, 0), Err(11), Some(0)),
        (Call::Untask(2), DONE, Some(0)),
        (Call::Sem(0), DONE, Some(0)),
        (Call::Lock(1, 0), DONE, Some(0)),
    ];

    // Task 0 waits for 1, and 1 for 2. Task 3 comes meanwhile: it is more urgent than 2 by its base, and does not run.
    const CHAIN: [Case; 5] = [
        (Call::Lock(2, 0), DONE, Some(0)),
        (Call::Lock(1, 1), DONE, Some(0)),
        (Call::Lock(1, 0), Ok((true, 0, 0b100)), Some(0)),
        (Call::Lock(0, 1), Ok((true, 0, 0b110)), Some(2)),
        (Call::Task(3, 15), DONE, Some(2)),
    ];

    // Rings of two, three and four tasks are refused, chains as long are not, and `try` meets no ring. A lock that would close one is accepted once the chain is cut.
    const RINGS: [Case; 19] = [
        (Call::Lock(0, 0), DONE, Some(0)),
        (Call::Lock(1, 1), DONE, Some(0)),
        (Call::Lock(2, 2), DONE, Some(0)),
        (Call::Lock(1, 0), WAITS, Some(0)),
        (Call::Lock(0, 1), Err(21), Some(0)),
        (Call::Try(0, 1), Err(17), Some(0)),
        (Call::Lock(2, 1), WAITS, Some(0)),
        (Call::Lock(0, 2), Err(21), Some(0)),
        (Call::Try(0, 2), Err(17), Some(0)),
        (Call::Task(3, 1), DONE, Some(3)),
        (Call::Sem(3), DONE, Some(3)),
        (Call::Lock(3, 3), DONE, Some(3)),
        (Call::Lock(3, 2), Ok((true, 0, 0b111)), Some(0)),
        (Call::Lock(0, 3), Err(21), Some(0)),
        (Call::Try(0, 3), Err(17), Some(0)),
        (Call::Release(1), Ok((false, 0b10, 0b1)), Some(1)),
        (Call::Lock(0, 3), WAITS, Some(1)),
        (Call::Lock(1, 0), Err(21), Some(1)),
        (Call::Try(1, 0), Err(17), Some(1)),
    ];

    // Tasks 3, 5 and 4 come to wait one after another, and 4 is first: more urgent than 3, and smaller than 5.
    const QUEUE: [Case; 12] = [
        (Call::Lock(2, 0), DONE, Some(0)),
        (Call::Task(3, 25), DONE, Some(0)),
        (Call::Task(4, 20), DONE, Some(0)),
        (Call::Task(5, 20), DONE, Some(0)),
        (Call::Lock(3, 0), Ok((true, 0, 0b100)), Some(0)),
        (Call::Lock(5, 0), Ok((true, 0, 0b100)), Some(0)),
        (Call::Lock(4, 0), WAITS, Some(0)),
        (Call::Unlock(2, 0), Ok((false, 0b10000, 0b100)), Some(0)),
        (Call::Unlock(4, 0), Ok((false, 0b100000, 0)), Some(0)),
        (Call::Unlock(5, 0), Ok((false, 0b1000, 0)), Some(0)),
        (Call::Unlock(3, 0), DONE, Some(0)),
        (Call::Try(1, 0), DONE, Some(0)),
    ];

    // Tasks 1 and 3 wait for 2, and task 0 for 3: by its level 3 is before 1, by its base behind.
    const LENT: [Case; 6] = [
        (Call::Lock(2, 0), DONE, Some(0)),
        (Call::Task(3, 25), DONE, Some(0)),
        (Call::Lock(3, 1), DONE, Some(0)),
        (Call::Lock(3, 0), Ok((true, 0, 0b100)), Some(0)),
        (Call::Lock(1, 0), Ok((true, 0, 0b100)), Some(0)),
        (Call::Lock(0, 1), Ok((true, 0, 0b1100)), Some(2)),
    ];

    // Tasks 2, 1 and 0 come to wait for 3 one after another, and its level rises each time.
    static DUE: [Case<(u32, u32)>; 9] = [
        (Call::Task(0, (499, 0)), DONE, Some(0)),
        (Call::Task(1, (500, 2)), DONE, Some(0)),
        (Call::Task(2, (500, 1)), DONE, Some(0)),
        (Call::Task(3, (501, 3)), DONE, Some(0)),
        (Call::Sem(0), DONE, Some(0)),
        (Call::Lock(3, 0), DONE, Some(0)),
        (Call::Lock(2, 0), Ok((true, 0, 0b1000)), Some(0)),
        (Call::Lock(1, 0), Ok((true, 0, 0b1000)), Some(0)),
        (Call::Lock(0, 0), Ok((true, 0, 0b1000)), Some(3)),
    ];

    // The semaphore goes to 0, then 1, then 2.
    static HANDED_ON: [Case<(u32, u32)>; 3] = [
        (Call::Unlock(3, 0), Ok((false, 0b1, 0b1000)), Some(0)),
        (Call::Unlock(0, 0), Ok((false, 0b10, 0)), Some(0)),
        (Call::Unlock(1, 0), Ok((false, 0b100, 0)), Some(0)),
    ];

    // Each task holds the semaphore of its number; 0 waits for 1, and 2 for 0. Semaphore 3 is free.
    static ALL_HELD: [Case; 6] = [
        (Call::Sem(3), DONE, Some(0)),
        (Call::Lock(0, 0), DONE, Some(0)),
        (Call::Lock(1, 1), DONE, Some(0)),
        (Call::Lock(2, 2), DONE, Some(0)),
        (Call::Lock(0, 1), Ok((true, 0, 0b10)), Some(1)),
        (Call::Lock(2, 0), WAITS, Some(1)),
    ];

    // Where more than one applies the first is given: task 0, which waits, holds 0, does not hold 1, and would close a ring at 2.
    static SEMAPHORE_REFUSALS: [Case; 44] = [
        (Call::Sem(64), Err(10), Some(1)),
        (Call::Sem(4294967295), Err(10), Some(1)),
        (Call::Sem(0), Err(12), Some(1)),
        (Call::Sem(3), Err(12), Some(1)),
        (Call::Unsem(64), Err(10), Some(1)),
        (Call::Unsem(4), Err(11), Some(1)),
        (Call::Lock(64, 64), Err(10), Some(1)),
        (Call::Lock(5, 64), Err(10), Some(1)),
        (Call::Lock(64, 5), Err(10), Some(1)),
        (Call::Lock(0, 64), Err(10), Some(1)),
        (Call::Lock(3, 0), Err(11), Some(1)),
        (Call::Lock(1, 5), Err(11), Some(1)),
        (Call::Lock(5, 5), Err(11), Some(1)),
        (Call::Lock(0, 5), Err(11), Some(1)),
        (Call::Lock(0, 0), Err(13), Some(1)),
        (Call::Lock(0, 1), Err(13), Some(1)),
        (Call::Lock(0, 2), Err(13), Some(1)),
        (Call::Lock(0, 3), Err(13), Some(1)),
        (Call::Lock(1, 1), Err(16), Some(1)),
        (Call::Lock(1, 0), Err(21), Some(1)),
        (Call::Lock(1, 2), Err(21), Some(1)),
        (Call::Try(5, 64), Err(10), Some(1)),
        (Call::Try(64, 5), Err(10), Some(1)),
        (Call::Try(3, 0), Err(11), Some(1)),
        (Call::Try(0, 5), Err(11), Some(1)),
        (Call::Try(0, 0), Err(13), Some(1)),
        (Call::Try(0, 2), Err(13), Some(1)),
        (Call::Try(0, 3), Err(13), Some(1)),
        (Call::Try(1, 1), Err(16), Some(1)),
        (Call::Try(1, 2), Err(17), Some(1)),
        (Call::Unlock(5, 64), Err(10), Some(1)),
        (Call::Unlock(64, 5), Err(10), Some(1)),
        (Call::Unlock(3, 0), Err(11), Some(1)),
        (Call::Unlock(0, 5), Err(11), Some(1)),
        (Call::Unlock(0, 0), Err(13), Some(1)),
        (Call::Unlock(0, 1), Err(13), Some(1)),
        (Call::Unlock(1, 3), Err(15), Some(1)),
        (Call::Unlock(1, 2), Err(15), Some(1)),
        (Call::Release(64), Err(10), Some(1)),
        (Call::Release(3), Err(11), Some(1)),
        (Call::Release(1), Err(14), Some(1)),
        (Call::Task(0, 1), Err(12), Some(1)),
        (Call::Untask(0), Err(13), Some(1)),
        (Call::Untask(1), Err(19), Some(1)),
    ];

    // A semaphore, and its holder, its waiters and their number.
    type Asked = (
        u32,
        Result<Option<u32>, u32>,
        Result<TaskSet, u32>,
        Result<u32, u32>,
    );

    // Where each task holds the semaphore of its number, 0 waits for 1, and 2 for 0.
    static WHILE_ALL_HELD: [Asked; 4] = [
        (0, Ok(Some(0)), Ok(0b100), Ok(1)),
        (1, Ok(Some(1)), Ok(0b1), Ok(1)),
        (2, Ok(Some(2)), Ok(0), Ok(0)),
        (3, Ok(None), Ok(0), Ok(0)),
    ];

    // Where tasks 0 and 1 wait at what task 2 holds.
    static WHILE_ONE_HELD: [Asked; 5] = [
        (0, Ok(Some(2)), Ok(0b11), Ok(2)),
        (1, Ok(None), Ok(0), Ok(0)),
        (3, Err(11), Err(11), Err(11)),
        (64, Err(10), Err(10), Err(10)),
        (4294967295, Err(10), Err(10), Err(10)),
    ];

    // What it shows; calls on a kernel with three tasks and three semaphores, and further calls; the rows that are written in the end, by number, with base and level.
    type Story = (
        &'static str,
        &'static [Case],
        &'static [Case],
        &'static [(usize, u32, u32)],
    );

    const STORIES: [Story; 14] = [
        (
            "the most urgent of two waiters counts",
            &TWO_HELD,
            &[],
            &[(0, 10, 10), (1, 20, 20), (2, 30, 10)],
        ),
        (
            "unlock: the other waiter still counts",
            &TWO_HELD,
            &[(Call::Unlock(2, 0), Ok((false, 0b1, 0b100)), Some(0))],
            &[(0, 10, 10), (1, 20, 20), (2, 30, 20)],
        ),
        (
            "unlock of both: the base is left",
            &TWO_HELD,
            &[
                (Call::Unlock(2, 1), Ok((false, 0b10, 0)), Some(2)),
                (Call::Unlock(2, 0), Ok((false, 0b1, 0b100)), Some(0)),
            ],
            &[(0, 10, 10), (1, 20, 20), (2, 30, 30)],
        ),
        (
            "release: the other waiter still counts",
            &TWO_HELD,
            &[(Call::Release(0), Ok((false, 0b1, 0b100)), Some(0))],
            &[(0, 10, 10), (1, 20, 20), (2, 30, 20)],
        ),
        (
            "base: a waiter turns the less urgent of two",
            &TWO_HELD,
            &[(Call::Base(0, 25), Ok((false, 0, 0b101)), Some(2))],
            &[(0, 25, 25), (1, 20, 20), (2, 30, 20)],
        ),
        (
            "unsem: all waiters are ready, and the holder has its base",
            &ONE_HELD,
            &ENDED,
            &[(0, 10, 10), (1, 20, 20), (2, 30, 30)],
        ),
        (
            "a level goes along a chain",
            &CHAIN,
            &[],
            &[(0, 10, 10), (1, 20, 10), (2, 30, 10), (3, 15, 15)],
        ),
        (
            "the end of the chain falls first",
            &CHAIN,
            &[(Call::Unlock(2, 0), Ok((false, 0b10, 0b100)), Some(1))],
            &[(0, 10, 10), (1, 20, 10), (2, 30, 30), (3, 15, 15)],
        ),
        (
            "its middle falls next",
            &CHAIN,
            &[
                (Call::Unlock(2, 0), Ok((false, 0b10, 0b100)), Some(1)),
                (Call::Unlock(1, 1), Ok((false, 0b1, 0b10)), Some(0)),
            ],
            &[(0, 10, 10), (1, 20, 20), (2, 30, 30), (3, 15, 15)],
        ),
        (
            "the middling task runs once the chain is less urgent",
            &CHAIN,
            &[(Call::Base(0, 40), Ok((false, 0, 0b111)), Some(3))],
            &[(0, 40, 40), (1, 20, 20), (2, 30, 20), (3, 15, 15)],
        ),
        (
            "a ring is refused, a chain is not",
            &RINGS,
            &[],
            &[(0, 10, 10), (1, 20, 1), (2, 30, 1), (3, 1, 1)],
        ),
        (
            "the more urgent waiter is first, then the smaller number",
            &QUEUE,
            &[],
            &[
                (0, 10, 10),
                (1, 20, 20),
                (2, 30, 30),
                (3, 25, 25),
                (4, 20, 20),
                (5, 20, 20),
            ],
        ),
        (
            "a waiter goes by its level, not by its base",
            &LENT,
            &[(Call::Unlock(2, 0), Ok((false, 0b1000, 0b100)), Some(3))],
            &[(0, 10, 10), (1, 20, 20), (2, 30, 30), (3, 25, 10)],
        ),
        (
            "a waiter goes by its level just before the call, not by an earlier one",
            &LENT,
            &[
                (Call::Release(0), Ok((false, 0b1, 0b1100)), Some(0)),
                (Call::Unlock(2, 0), Ok((false, 0b10, 0b100)), Some(0)),
            ],
            &[(0, 10, 10), (1, 20, 20), (2, 30, 30), (3, 25, 25)],
        ),
    ];

    fn grade(value: u32) -> Result<Grade, Fail> {
        Grade::new(value).ok_or_else(|| Fail::new("no grade"))
    }

    fn deadline(tick: u32, class: u32) -> Result<Deadline, Fail> {
        Deadline::new(tick, class).ok_or_else(|| Fail::new("no deadline"))
    }

    // An urgency that a table writes as a plain value.
    trait Written<V>: Urgency {
        fn of(value: V) -> Result<Self, Fail>;

        fn written(self) -> V;
    }

    impl Written<u32> for Grade {
        fn of(value: u32) -> Result<Grade, Fail> {
            grade(value)
        }

        fn written(self) -> u32 {
            self.value()
        }
    }

    impl Written<(u32, u32)> for Deadline {
        fn of((tick, class): (u32, u32)) -> Result<Deadline, Fail> {
            deadline(tick, class)
        }

        fn written(self) -> (u32, u32) {
            (self.tick(), self.class())
        }
    }

    fn read<V, U: Written<V>>(call: Call<V>) -> Result<Call<U>, Fail> {
        Ok(match call {
            Call::Task(t, v) => Call::Task(t, U::of(v)?),
            Call::Untask(t) => Call::Untask(t),
            Call::Base(t, v) => Call::Base(t, U::of(v)?),
            Call::Sem(s) => Call::Sem(s),
            Call::Unsem(s) => Call::Unsem(s),
            Call::Lock(t, s) => Call::Lock(t, s),
            Call::Try(t, s) => Call::Try(t, s),
            Call::Unlock(t, s) => Call::Unlock(t, s),
            Call::Release(t) => Call::Release(t),
        })
    }

    // An order the other way round.
    #[derive(Clone, Copy)]
    struct Turned<U> {
        value: U,
    }

    impl<U: Urgency> Urgency for Turned<U> {
        ghost urgent = { λ a b. U.urgent b.value a.value };

        ghost total = { λ a b. U.total b.value a.value };

        ghost transitive = { λ a b c x y. U.transitive c.value b.value a.value y x };

        ghost antisymmetric = { λ a b x y. ap (λ u. record { value = u }) (U.antisymmetric a.value b.value y x) };

        fn at_least(&self, other: &Turned<U>) -> bool {
            other.value.at_least(&self.value)
        }
    }

    // A kernel under an order that is made from any other, as a part of a struct.
    #[derive(Drop)]
    struct Unit<'a, U: Urgency> {
        kernel: Kernel<'a, Turned<U>>,
    }

    impl<'a, U: Urgency> Unit<'a, U> {
        fn open(rows: &'a mut [Row<Turned<U>>]) -> Unit<'a, U> {
            Unit {
                kernel: Kernel::open(rows),
            }
        }

        fn task(&mut self, t: u32, value: U) -> Option<u32> {
            let _ = self.kernel.task(t, Turned { value });
            self.kernel.running()
        }
    }

    // Rows that hold base 7 and level 9.
    fn rows<const N: usize>() -> Result<[Row<Grade>; N], Fail> {
        let base = grade(7)?;
        let level = grade(9)?;
        Ok([Row { base, level }; N])
    }

    // Rows that hold the least urgent deadline.
    fn least_rows() -> Result<[Row<Deadline>; 64], Fail> {
        let least = deadline(4294967295, 0)?;
        Ok([Row {
            base: least,
            level: least,
        }; 64])
    }

    // An answer, with a refusal as its number.
    fn plain<T: Copy>(answer: Result<T, Refusal>) -> Result<T, u32> {
        answer.map_err(|refusal| refusal.number())
    }

    fn value<V, U: Written<V>>(answer: Result<U, Refusal>) -> Result<V, u32> {
        plain(answer).map(|urgency| urgency.written())
    }

    // The number of a refusal, if it is one.
    fn refused<T: Copy>(answer: Result<T, Refusal>) -> Option<u32> {
        plain(answer).err()
    }

    // Makes the call of each case.
    fn make_all<V: Copy, U: Written<V>>(
        rt: &impl Abort,
        name: &str,
        kernel: &mut Kernel<'_, U>,
        cases: &[Case<V>],
    ) -> Result<(), Fail> {
        for (i, (call, reply, running)) in cases.iter().enumerate() {
            assert_eq!(rt; plain(kernel.make(read(*call)?)), *reply, "{name}, {i}");
            assert_eq!(rt; kernel.running(), *running, "{name}, {i}");
        }
        Ok(())
    }

    // Opens a kernel, in which none runs, and makes the call of each case of the tables.
    fn make_each<V: Copy, U: Written<V>>(
        rt: &impl Abort,
        name: &str,
        rows: &mut [Row<U>],
        tables: &[&[Case<V>]],
    ) -> Result<(), Fail> {
        let mut kernel = Kernel::open(rows);
        assert_eq!(rt; kernel.running(), None);
        for cases in tables {
            make_all(rt, name, &mut kernel, cases)?;
        }
        Ok(())
    }

    // Each row holds base 7 and level 9, but those that are listed: by number, with what they hold.
    fn each_holds(rt: &impl Abort, name: &str, rows: &[Row<Grade>], written: &[(usize, u32, u32)]) {
        for (i, row) in rows.iter().enumerate() {
            let listed = written.iter().find(|(number, _, _)| *number == i);
            let held = listed.map_or((7, 9), |(_, base, level)| (*base, *level));
            assert_eq!(rt; (row.base.value(), row.level.value()), held, "{name}, {i}");
        }
    }

    // Asks the three questions of each semaphore.
    fn ask_each(rt: &impl Abort, kernel: &Kernel<'_, Grade>, asked: &[Asked]) {
        for (s, held_by, waiters, count) in asked {
            assert_eq!(rt; plain(kernel.holder_of(*s)), *held_by, "{s}");
            assert_eq!(rt; plain(kernel.waiters_at(*s)), *waiters, "{s}");
            assert_eq!(rt; plain(kernel.count_at(*s)), *count, "{s}");
        }
    }

    // Makes the calls of two tables on a kernel with three tasks and three semaphores, and compares every row, those of absent tasks and past the 64th too.
    fn story(
        rt: &impl Abort,
        name: &str,
        start: &[Case],
        end: &[Case],
        written: &[(usize, u32, u32)],
    ) -> Result<(), Fail> {
        let mut rows = rows::<66>()?;
        make_each(rt, name, &mut rows, &[&THREE, start, end])?;
        each_holds(rt, name, &rows, written);
        Ok(())
    }

    #[test]
    fn few_rows(rt: HostRuntime) -> Result<(), Fail> {
        let enough = rows::<64>()?;
        assert_eq!(rt; refused(check_rows(&enough)), None);
        let mut few = rows::<63>()?;
        assert_eq!(rt; refused(check_rows(&few)), Some(3));
        make_each(&rt, "case", &mut few, &[&FEW_ROWS])?;
        each_holds(&rt, "row", &few, &[]);
        Ok(())
    }

    #[test]
    fn refusals(rt: HostRuntime) -> Result<(), Fail> {
        let mut rows = rows::<64>()?;
        make_each(&rt, "case", &mut rows, &[&REFUSALS])?;
        each_holds(&rt, "row", &rows, &[(63, 5, 5)]);
        Ok(())
    }

    #[test]
    fn questions(rt: HostRuntime) -> Result<(), Fail> {
        let mut rows = rows::<64>()?;
        let mut kernel = Kernel::open(&mut rows);
        assert_eq!(rt; value(kernel.base_of(63)), Err(11));
        assert_eq!(rt; plain(kernel.task(63, grade(5)?)), DONE);
        assert_eq!(rt; plain(kernel.base(63, grade(6)?)), Ok((false, 0, 1 << 63)));
        for (t, answer) in QUESTIONS {
            assert_eq!(rt; value(kernel.base_of(t)), answer);
            assert_eq!(rt; value(kernel.level_of(t)), answer);
            assert_eq!(rt; refused(kernel.state_of(t)), answer.err());
        }
        assert_eq!(rt; kernel.state_of(63), Ok(Wait::Ready));
        Ok(())
    }

    #[test]
    fn grades(rt: HostRuntime) -> Result<(), Fail> {
        let mut rows = rows::<64>()?;
        make_each(&rt, "case", &mut rows, &[&GRADES])
    }

    #[test]
    fn deadlines(rt: HostRuntime) -> Result<(), Fail> {
        let mut rows = least_rows()?;
        let mut kernel = Kernel::open(&mut rows);
        for (t, tick, class, running) in DEADLINES {
            assert_eq!(rt; plain(kernel.task(t, deadline(tick, class)?)), DONE);
            assert_eq!(rt; kernel.running(), Some(running));
        }
        assert_eq!(rt;
            plain(kernel.base(7, deadline(500, 3)?)),
            Ok((false, 0, 128))
        );
        assert_eq!(rt; kernel.running(), Some(7));
        Ok(())
    }

    // A task that ended leaves its row, and the rows of tasks that never came and those past the 64th stay.
    #[test]
    fn rows_that_stay(rt: HostRuntime) -> Result<(), Fail> {
        let mut rows = rows::<66>()?;
        make_each(&rt, "case", &mut rows, &[&ROWS])?;
        each_holds(&rt, "row", &rows, &[(0, 5, 5), (63, 4, 4)]);
        Ok(())
    }

    #[test]
    fn few_rows_of_semaphores(rt: HostRuntime) -> Result<(), Fail> {
        let mut few = rows::<63>()?;
        make_each(&rt, "case", &mut few, &[&FEW_ROWS_OF_SEMAPHORES])?;
        each_holds(&rt, "row", &few, &[]);
        Ok(())
    }

    // Nothing has changed after all the refusals.
    #[test]
    fn refusals_of_waits(rt: HostRuntime) -> Result<(), Fail> {
        let mut rows = rows::<64>()?;
        let mut kernel = Kernel::open(&mut rows);
        make_all(&rt, "case", &mut kernel, &THREE)?;
        make_all(&rt, "case", &mut kernel, &ALL_HELD)?;
        ask_each(&rt, &kernel, &WHILE_ALL_HELD);
        make_all(&rt, "case", &mut kernel, &SEMAPHORE_REFUSALS)?;
        ask_each(&rt, &kernel, &WHILE_ALL_HELD);
        each_holds(&rt, "row", &rows, &[(0, 10, 10), (1, 20, 10), (2, 30, 30)]);
        Ok(())
    }

    #[test]
    fn questions_of_waits(rt: HostRuntime) -> Result<(), Fail> {
        let mut rows = rows::<64>()?;
        let mut kernel = Kernel::open(&mut rows);
        make_all(&rt, "case", &mut kernel, &THREE)?;
        make_all(&rt, "case", &mut kernel, &ONE_HELD)?;
        ask_each(&rt, &kernel, &WHILE_ONE_HELD);
        assert_eq!(rt; value(kernel.base_of(2)), Ok(30));
        assert_eq!(rt; value(kernel.level_of(2)), Ok(10));
        assert_eq!(rt; value(kernel.level_of(1)), Ok(20));
        assert_eq!(rt; kernel.state_of(1), Ok(Wait::AtSemaphore(0)));
        assert_eq!(rt; plain(kernel.unlock(2, 0)), Ok((false, 0b1, 0b100)));
        ask_each(&rt, &kernel, &[(0, Ok(Some(0)), Ok(0b10), Ok(1))]);
        assert_eq!(rt; kernel.state_of(0), Ok(Wait::Ready));
        assert_eq!(rt; plain(kernel.unsem(0)), Ok((false, 0b10, 0)));
        ask_each(&rt, &kernel, &[(0, Err(11), Err(11), Err(11))]);
        assert_eq!(rt; kernel.state_of(1), Ok(Wait::Ready));
        assert_eq!(rt; plain(kernel.sem(0)), DONE);
        assert_eq!(rt; plain(kernel.try_lock(2, 0)), DONE);
        assert_eq!(rt; plain(kernel.lock(1, 0)), Ok((true, 0, 0b100)));
        assert_eq!(rt; plain(kernel.release(1)), Ok((false, 0b10, 0b100)));
        ask_each(&rt, &kernel, &[(0, Ok(Some(2)), Ok(0), Ok(0))]);
        Ok(())
    }

    #[test]
    fn deadlines_of_waits(rt: HostRuntime) -> Result<(), Fail> {
        let mut rows = least_rows()?;
        let mut kernel = Kernel::open(&mut rows);
        make_all(&rt, "case", &mut kernel, &DUE)?;
        assert_eq!(rt; value(kernel.level_of(3)), Ok((499, 0)));
        make_all(&rt, "case", &mut kernel, &HANDED_ON)?;
        assert_eq!(rt; value(kernel.level_of(3)), Ok((501, 3)));
        Ok(())
    }

    // The rows of absent tasks stay while levels rise and fall.
    #[test]
    fn rows_that_stay_in_waits(rt: HostRuntime) -> Result<(), Fail> {
        let mut rows = rows::<66>()?;
        make_each(&rt, "case", &mut rows, &[&ROWS_OF_WAITS])?;
        each_holds(
            &rt,
            "row",
            &rows,
            &[(0, 5, 5), (1, 20, 20), (2, 30, 20), (63, 4, 4)],
        );
        Ok(())
    }

    // Whoever lends rows knows what they hold once the kernel has ended.
    fn opened<U: Urgency>(rows: &mut [Row<U>])
        ensures { rows.new ≡ rows.old }
    {
        let _kernel = Kernel::open(rows);
    }

    #[test]
    fn rows_after_the_end(rt: HostRuntime) -> Result<(), Fail> {
        let mut rows = rows::<64>()?;
        opened(&mut rows);
        each_holds(&rt, "row", &rows, &[]);
        Ok(())
    }

    #[test]
    fn turned_order(rt: HostRuntime) -> Result<(), Fail> {
        let least = Turned { value: grade(1)? };
        let mut rows = [Row {
            base: least,
            level: least,
        }; 64];
        let mut unit = Unit::open(&mut rows);
        assert_eq!(rt; unit.task(0, grade(10)?), Some(0));
        assert_eq!(rt; unit.task(1, grade(30)?), Some(1));
        assert_eq!(rt; unit.task(2, grade(20)?), Some(1));
        Ok(())
    }

    #[test]
    fn stories(rt: HostRuntime) -> Result<(), Fail> {
        for (name, start, end, written) in STORIES {
            story(&rt, name, start, end, written)?;
        }
        Ok(())
    }
}
