ghost use Rattle.std.specs.Prelude.{◌≡◌};
ghost use Rattle.book.specs.Refusals.{number_of};

/// Why a call is refused. The one that is given is the first in this order that applies.
#[derive(Clone, Copy, Debug, PartialEq, Eq)]
pub enum Refusal {
    /// A script has over 60,000 bytes or 4,096 lines, or a line number is outside 2 to 4,096.
    TooLarge = 1,
    /// The output buffer has fewer than 400 bytes.
    ShortBuffer = 2,
    /// There are fewer than 64 rows.
    FewRows = 3,
    /// Line 1 is no order line, or missing.
    NoOrder = 4,
    /// A line has over 200 bytes.
    LongLine = 5,
    /// A line is no form.
    NoForm = 6,
    /// The word names no call.
    UnknownCall = 7,
    /// The arguments are not those of the call.
    WrongArguments = 8,
    /// A number is too large to be one, or a value is outside its order's range.
    OutOfRange = 9,
    /// The number of a task, semaphore or condition is over 63.
    Over63 = 10,
    /// What the call needs is not present.
    NotDeclared = 11,
    /// What the call would make is present already.
    AlreadyThere = 12,
    /// The caller is waiting.
    CallerWaits = 13,
    /// The task to release is not waiting.
    NotWaiting = 14,
    /// The caller does not hold the semaphore.
    NotHolder = 15,
    /// The caller holds the semaphore already.
    HoldsIt = 16,
    /// Another task holds the semaphore.
    HeldByOther = 17,
    /// The caller holds a further semaphore.
    HoldsFurther = 18,
    /// What is to end is in use.
    InUse = 19,
    /// The helper to add is there, or the one to drop is not.
    HelperAsItIs = 20,
    /// The step would make a ring.
    WouldRing = 21,
}

impl Refusal {
    /// The number by which a refusal is known outside.
    pub fn number(self) -> u32
        ensures { result ≡ number_of self }
    {
        self as u32
    }
}
