//! The least deadline of the partitions' hardware timers.

ghost use Rattle.std.specs.Prelude.{◌≡◌, false, IfSome, slice_get};
ghost use Rattle.machine_model.specs.Lists.{is_number};
ghost use Rattle.system_state.specs.State.{AreFrom, IsFrom};

use crate::own_state::PartState;
use xm_base::PartId;

/// A time before which no hardware timer of these partitions is due but that of the second, from one before which none is but that of
/// the first.
#[inline(always)]
pub(crate) fn least_but(
    parts: &[PartState],
    one: Option<PartId>,
    least: u64,
    other: Option<PartId>,
) -> u64
    ensures { AreFrom one least parts.now → AreFrom other result parts.now }
{
    if one == other {
        least
    } else {
        least.min(deadline_of(parts, one))
    }
}

// A time before which the hardware timer of a partition is not due: its deadline. Where there is no such partition, any time is one.
fn deadline_of(parts: &[PartState], part: Option<PartId>) -> u64
    ensures { IfSome part (λ p. IfSome (slice_get parts.now p) (λ own. IsFrom result own.clocks.hardware_timer)) }
{
    match part {
        Some(p) => deadline_at(parts, usize::from(p)),
        None => u64::MAX,
    }
}

// The same of the partition at a place.
fn deadline_at(parts: &[PartState], place: usize) -> u64
    ensures { IfSome (slice_get parts.now place) (λ own. IsFrom result own.clocks.hardware_timer) }
{
    match parts.get(place) {
        Some(own) => own.deadline(),
        None => u64::MAX,
    }
}

/// The least deadline of these partitions' hardware timers but that of one: before it none of these is due.
pub(crate) fn least_deadline(parts: &[PartState], but: Option<PartId>) -> u64
    ensures { AreFrom but result parts.now }
{
    let mut least = u64::MAX;
    for p in 0..parts.len() {
        least = least.min(deadline_unless(parts, p, but));
    }
    least
}

// A time before which the hardware timer of the partition at a place is not due, unless it is one of which that is not asked.
fn deadline_unless(parts: &[PartState], place: usize, but: Option<PartId>) -> u64
    ensures { is_number but place ≡ false → IfSome (slice_get parts.now place) (λ own. IsFrom result own.clocks.hardware_timer) }
{
    if is_part(but, place) {
        u64::MAX
    } else {
        deadline_at(parts, place)
    }
}

// Whether a number is that of a partition.
fn is_part(part: Option<PartId>, p: usize) -> bool
    ensures { result ≡ is_number part p }
{
    match part {
        Some(part) => usize::from(part) == p,
        None => false,
    }
}
