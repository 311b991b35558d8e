ghost use Rattle.std.specs.Prelude.{◌≡◌, length};
ghost use Rattle.waits.specs.Waits.{waits};
ghost use Rattle.waits.specs.Facts.{WaitersKnown, HoldersPresent, HelpersPresent, SemaphoresPresent, HeldWhereAwaited, BareOnCondition, RingFree};

use super::parts::{Condition, Holder, Wait};

/// The wait table: what is present, and who waits for what. Each fact that every kernel keeps is a part of its type.
/// Task, semaphore and condition of one number have nothing to do with one another, so each kind has an array of its own.
#[derive(Clone, Copy, Debug, PartialEq, Eq)]
pub struct WaitTable {
    pub(crate) tasks: [Option<Wait>; 64],
    pub(crate) semaphores: [Option<Holder>; 64],
    pub(crate) conditions: [Option<Condition>; 64],
    ghost sized: { (length tasks ≡ 64) × (length semaphores ≡ 64) × (length conditions ≡ 64) },
    ghost known: { WaitersKnown (waits tasks semaphores conditions) },
    ghost holders: { HoldersPresent (waits tasks semaphores conditions) },
    ghost helpers: { HelpersPresent (waits tasks semaphores conditions) },
    ghost belong: { SemaphoresPresent (waits tasks semaphores conditions) },
    ghost held: { HeldWhereAwaited (waits tasks semaphores conditions) },
    ghost bare: { BareOnCondition (waits tasks semaphores conditions) },
    ghost free: { RingFree (waits tasks semaphores conditions) },
}
