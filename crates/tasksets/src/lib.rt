//! Sets of tasks as the bits of one number.
#![tactic(auto)]

ghost use Rattle.std.specs.Prelude.{◌≡◌, ℕ, ◌<◌, ◌≤◌, Bool, not, ◌&&◌, ◌||◌, MatchOption, ◌==◌};
ghost use Rattle.std.specs.Iterator.{item_count};
ghost use Rattle.tasksets.specs.Sets.{Has, has, Smallest, Takes, those, members, members_below};

/// A set of tasks: task k has the bit of value 2^k.
pub type TaskSet = u64;

/// Whether task `k` is a member; no task past 63 is.
pub fn contains(set: TaskSet, k: u32) -> bool
    ensures { result ≡ has set k }
{
    k < 64 && (set >> k) & 1 == 1
}

/// The set with task `k` in it; as it is where `k` is past 63.
pub fn with(set: TaskSet, k: u32) -> TaskSet
    ensures { (j : ℕ) → j < 64 → has result j ≡ (has set j || j == k) }
{
    if k < 64 { set | 1 << k } else { set }
}

/// The set without task `k`.
pub fn without(set: TaskSet, k: u32) -> TaskSet
    ensures members { (j : ℕ) → has result j ≡ (has set j && not (j == k)) }
    ensures within { result ≤ set }
    ensures falls { Has set k → result < set }
{
    if k < 64 { set & !(1 << k) } else { set }
}

/// The smallest member, if there is one.
pub fn smallest(set: TaskSet) -> Option<u32>
    ensures { MatchOption result (set ≡ 0) (λ k. Smallest set k × (k < 64)) }
{
    if set == 0 {
        return None;
    }
    Some(set.trailing_zeros())
}

/// How many members the set has.
pub fn size(set: TaskSet) -> u32
    ensures { result ≡ members_below 64 set }
{
    set.count_ones()
}

/// An iterator over the members of a set, rising.
#[derive(Debug, Drop)]
pub struct Iter(TaskSet);

impl Iterator for Iter {
    type Item = u32;

    ghost next_gives = { λ s r t. Takes s.0 r t.0 };

    ghost remaining = { item_count (λ s. members s.0) };

    fn next(&mut self) -> Option<u32> {
        let first = smallest(self.0)?;
        self.0 = without(self.0, first);
        Some(first)
    }
}

/// The members of the set, from the smallest up.
pub fn members(set: TaskSet) -> Iter
    ensures { result.0 ≡ set }
{
    Iter(set)
}

/// The set of the numbers below 64 that pass a test; where it is known what the test says, the set of what it says yes of.
pub fn those<F: Fn(u32) -> bool>(test: F) -> TaskSet
    requires { (k : ℕ) → k < 64 → F.pre test k }
    ensures members { (k : ℕ) → k < 64 → F.post test k (has result k) }
    ensures known { (p : ℕ → Bool) → ((k : ℕ) (b : Bool) → k < 64 → F.post test k b → b ≡ p k) → result ≡ those p }
{
    let mut set: TaskSet = 0;
    // A loop, since each turn tells what the test said, also where that was no.
    for k in 0..64u32 {
        if test(k) {
            set = with(set, k);
        }
    }
    set
}

#[cfg(test)]
mod tests {
    use super::*;

    // A task, whether it is in the set of 0 and 63, and the size of that set with and without the task.
    const ROWS: [(u32, bool, u32, u32); 5] = [
        (0, true, 2, 1),
        (1, false, 3, 2),
        (63, true, 2, 1),
        (64, false, 2, 2),
        (4294967295, false, 2, 2),
    ];

    #[test]
    fn members_at_the_ends(rt: HostRuntime) {
        let ends = with(with(0, 0), 63);
        assert_eq!(rt; ends, 9223372036854775809);
        for (k, member, more, fewer) in ROWS {
            assert_eq!(rt; contains(ends, k), member);
            assert_eq!(rt; size(with(ends, k)), more);
            assert_eq!(rt; size(without(ends, k)), fewer);
        }
        assert_eq!(rt; smallest(ends), Some(0));
        assert_eq!(rt; smallest(without(ends, 0)), Some(63));
        assert_eq!(rt; smallest(0), None);
    }

    #[test]
    fn members_one_after_another(rt: HostRuntime) {
        let mut each = members(those(|k| k % 63 == 0));
        assert_eq!(rt; each.next(), Some(0));
        assert_eq!(rt; each.next(), Some(63));
        assert_eq!(rt; each.next(), None);
    }
}
