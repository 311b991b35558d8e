//! Orders of urgency, two of them, and the more urgent of two.
#![tactic(auto)]

ghost use Rattle.std.specs.Prelude.{◌≡◌, Bool, T, ◌⊎◌, Some};
ghost use Rattle.std.proofs.Common.{arith, rules};
ghost use Rattle.std.proofs.lemmas.Bool.Decides.{nat_tests};
ghost use Rattle.urgency.specs.Order.{above, upper, same};
ghost use Rattle.urgency.specs.Orders.{by_grade, by_deadline};

mod deadline;
mod grade;

pub use deadline::Deadline;
pub use grade::Grade;

/// An order of urgencies: of any two one is at least as urgent, and only equal ones are so both ways.
pub trait Urgency: Copy {
    // `urgent a b`: a is at least as urgent as b.
    ghost urgent: { Self → Self → Bool };

    /// Whether this is at least as urgent as the other.
    fn at_least(&self, other: &Self) -> bool
        ensures { result ≡ urgent self.now other.now };

    ghost total: { (a b : Self) → T (urgent a b) ⊎ T (urgent b a) };

    ghost transitive: { (a b c : Self) → T (urgent a b) → T (urgent b c) → T (urgent a c) };

    ghost antisymmetric: { (a b : Self) → T (urgent a b) → T (urgent b a) → a ≡ b };
}

/// The smaller grade is the more urgent.
impl Urgency for Grade {
    ghost urgent = { by_grade };

    ghost total = { Prim.search rules };

    ghost transitive = { Prim.search rules };

    // Grades of one value are equal, since the fact in each has one proof.
    ghost antisymmetric = { Prim.grind (arith, nat_tests, Self.row.coded.inj) };

    fn at_least(&self, other: &Grade) -> bool {
        self.value() <= other.value()
    }
}

/// The earlier tick is the more urgent, and at equal ticks the greater class.
impl Urgency for Deadline {
    ghost urgent = { by_deadline };

    ghost total = { Prim.search rules };

    ghost transitive = { Prim.search rules };

    // So are deadlines of one tick and one class.
    ghost antisymmetric = { Prim.grind (arith, nat_tests, Self.row.coded.inj) };

    fn at_least(&self, other: &Deadline) -> bool {
        if self.tick() == other.tick() {
            other.class() <= self.class()
        } else {
            self.tick() < other.tick()
        }
    }
}

/// Whether the first is at least as urgent as the second; no urgency at all is the least.
pub fn at_least<U: Urgency>(a: Option<U>, b: Option<U>) -> bool
    ensures { result ≡ above U.urgent a b }
{
    match (a, b) {
        (_, None) => true,
        (None, Some(_)) => false,
        (Some(x), Some(y)) => x.at_least(&y),
    }
}

/// The more urgent of two, and the first where they are equal.
pub fn most_urgent<U: Urgency>(a: Option<U>, b: Option<U>) -> Option<U>
    ensures { result ≡ upper U.urgent a b }
{
    if at_least(a, b) { a } else { b }
}

/// Whether two are of the same urgency.
pub fn same_urgency<U: Urgency>(a: Option<U>, b: Option<U>) -> bool
    ensures { result ≡ same U.urgent a b }
{
    at_least(a, b) && at_least(b, a)
}

#[cfg(test)]
mod tests {
    use super::*;

    // A value, and whether there is a grade of it.
    const GRADES: [(u32, bool); 4] = [(0, false), (1, true), (255, true), (256, false)];

    // A tick and a class, whether there is such a deadline, and whether it is at least as urgent as tick 500 with class 2.
    const DEADLINES: [(u32, u32, bool, bool); 6] = [
        (499, 0, true, true),
        (500, 1, true, false),
        (500, 2, true, true),
        (500, 3, true, true),
        (500, 4, false, false),
        (501, 3, true, false),
    ];

    #[test]
    fn grades_and_deadlines(rt: HostRuntime) {
        for (value, made) in GRADES {
            let grade = Grade::new(value);
            assert_eq!(rt; grade.is_some(), made);
            assert!(rt; at_least(Grade::new(1), grade));
        }
        for (tick, class, made, first) in DEADLINES {
            let deadline = Deadline::new(tick, class);
            assert_eq!(rt; deadline.is_some(), made);
            assert_eq!(rt; at_least(deadline, Deadline::new(500, 2)), first);
        }
    }
}
