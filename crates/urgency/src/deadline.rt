//! Urgencies by a deadline.
ghost use Rattle.std.specs.Prelude.{◌≡◌, ◌<◌, ◌≤◌, MatchOption};

/// A tick by which the work is due, and a class from 0 to 3.
#[derive(Clone, Copy, Debug, PartialEq, Eq)]
pub struct Deadline {
    tick: u32,
    class: u8,
    ghost ok: { class ≤ 3 },
}

impl Deadline {
    /// The deadline at a tick with a class, if the class is at most 3.
    pub fn new(tick: u32, class: u32) -> Option<Deadline>
        ensures { MatchOption result (3 < class) (λ d. (class ≤ 3) × (d.tick ≡ tick) × (d.class ≡ class)) }
    {
        if class <= 3 {
            Some(Deadline {
                tick,
                class: class as u8,
            })
        } else {
            None
        }
    }

    /// The tick by which the work is due.
    pub fn tick(&self) -> u32
        ensures { result ≡ self.now.tick }
    {
        self.tick
    }

    /// The class of the work.
    pub fn class(&self) -> u32
        ensures { result ≡ self.now.class }
    {
        u32::from(self.class)
    }
}
