//! Urgencies by a grade.
ghost use Rattle.std.specs.Prelude.{◌≡◌, ◌≤◌, MatchOption};

/// An urgency from 1, the most urgent, to 255.
#[derive(Clone, Copy, Debug, PartialEq, Eq)]
pub struct Grade {
    value: u8,
    ghost ok: { 1 ≤ value },
}

impl Grade {
    /// The grade of a value, if it is from 1 to 255.
    pub fn new(value: u32) -> Option<Grade>
        ensures { MatchOption result (1 ≤ value → value ≤ 255 → ⊥) (λ g. (1 ≤ value) × (value ≤ 255) × (g.value ≡ value)) }
    {
        if (1..=255).contains(&value) {
            Some(Grade { value: value as u8 })
        } else {
            None
        }
    }

    /// The value of the grade.
    pub fn value(&self) -> u32
        ensures { result ≡ self.now.value }
    {
        u32::from(self.value)
    }
}
