//! How a partition stands, its registers without a number, its virtual traps and its timers.

ghost use Rattle.std.specs.Prelude.{◌≡◌, ◌+◌, ◌<◌, ◌≤◌, ◌^◌, ◌==◌, ◌&&◌, ◌≢◌, IfOk, nat_le, nat_lt, not};
ghost use Rattle.file_headers.specs.lemmas.GivesTerms.{IsReadAt};
ghost use Rattle.machine_model.specs.Structures.{flag};
ghost use Rattle.saved_machines.specs.Reading.{head_value};
ghost use Rattle.saved_machines.specs.SavedFields.{armed_timer, byte_where, double_word_where, no_timer, timer_field};
ghost use Rattle.saved_machines.specs.SavedFormat.{processor_format, standing_format, traps_format};
ghost use Rattle.saved_machines.specs.lemmas.ReadTerms.{AreStatusRegisters, processor_value, standing_value};

use crate::fault::SavedFault;
use crate::fields::{byte_below, double_up_to, flag, known_byte, multiple, state, word, zeros};
use crate::head::Head;
use virt_clocks::Timer;
use virt_traps::Virt;
use xm_base::{Cursor, State};

/// A deadline is below this.
const DEADLINES: u64 = 0x8000_0000_0000_0000;

/// How a partition stands.
#[derive(Clone, Copy, Debug, PartialEq, Eq)]
pub(crate) struct PartStanding {
    pub(crate) state: State,
    pub(crate) resets: u32,
    pub(crate) reset_status: u32,
    pub(crate) execution: u64,
}

/// The registers of a partition that have no number.
#[derive(Clone, Copy, Debug, PartialEq, Eq)]
pub(crate) struct StatusRegisters {
    pub(crate) pc: u32,
    pub(crate) npc: u32,
    pub(crate) y: u32,
    pub(crate) icc: u8,
    pub(crate) cwp: u8,
    pub(crate) inv: u8,
}

/// How many ticks have begun at most, of so many that are done: one more where something has halted.
pub(crate) fn begun(ticks: u64, halted: bool) -> u64
    requires { ticks ≤ 4000000000 }
    ensures { result ≡ ticks + flag halted }
{
    ticks + u64::from(halted)
}

/// How partition `p` stands.
pub(crate) fn standing(
    cursor: &mut Cursor<'_>,
    head: &Head,
    p: u8,
) -> Result<PartStanding, SavedFault>
    requires { head.now.ticks ≤ 4000000000 }
    ensures { IsReadAt standing_value result cursor.new ((standing_format (head_value head.now) p).read cursor.old) }
{
    known_byte(cursor, p)?;
    let state = state(cursor)?;
    let resets = word(cursor)?;
    let reset_status = word(cursor)?;
    let execution = double_up_to(cursor, begun(head.ticks, head.halted))?;
    Ok(PartStanding {
        state,
        resets,
        reset_status,
        execution,
    })
}

/// The registers that have no number.
pub(crate) fn processor(cursor: &mut Cursor<'_>) -> Result<StatusRegisters, SavedFault>
    ensures value { IsReadAt processor_value result cursor.new (processor_format.read cursor.old) }
    ensures registers { IfOk result AreStatusRegisters }
{
    let pc = multiple(cursor, 4)?;
    let npc = multiple(cursor, 4)?;
    let y = word(cursor)?;
    let icc = byte_below(cursor, 16)?;
    let cwp = byte_below(cursor, 8)?;
    let inv = other_window(cursor, cwp)?;
    Ok(StatusRegisters {
        pc,
        npc,
        y,
        icc,
        cwp,
        inv,
    })
}

/// A window that is not the current one.
fn other_window(cursor: &mut Cursor<'_>, cwp: u8) -> Result<u8, SavedFault>
    ensures value { IsReadAt (λ n. n) result cursor.new ((byte_where (λ inv. nat_lt inv 8 && not (inv == cwp))).read cursor.old) }
    ensures below { IfOk result (λ inv. inv < 8) }
    ensures differs { IfOk result (λ inv. cwp ≢ inv) }
{
    let at = cursor.at();
    let inv = cursor.u8()?;
    if inv < 8 && inv != cwp {
        Ok(inv)
    } else {
        Err(SavedFault::Field { at })
    }
}

/// The virtual traps.
pub(crate) fn traps(cursor: &mut Cursor<'_>) -> Result<Virt, SavedFault>
    ensures { IsReadAt (λ virt. virt) result cursor.new (traps_format.read cursor.old) }
{
    let enabled = flag(cursor)?;
    let base = multiple(cursor, 4096)?;
    let pending = word(cursor)?;
    let mask = word(cursor)?;
    Ok(Virt {
        enabled,
        base,
        pending,
        mask,
    })
}

/// A deadline.
fn deadline(cursor: &mut Cursor<'_>) -> Result<u64, SavedFault>
    ensures { IsReadAt (λ n. n) result cursor.new ((double_word_where (λ n. nat_le 1 n && nat_lt n (2 ^ 63))).read cursor.old) }
{
    let at = cursor.at();
    let n = cursor.u64()?;
    if 1 <= n && n < DEADLINES {
        Ok(n)
    } else {
        Err(SavedFault::Field { at })
    }
}

/// An interval.
fn interval(cursor: &mut Cursor<'_>) -> Result<u64, SavedFault>
    ensures { IsReadAt (λ n. n) result cursor.new ((double_word_where (λ n. nat_lt n (2 ^ 63))).read cursor.old) }
{
    let at = cursor.at();
    let n = cursor.u64()?;
    if n < DEADLINES {
        Ok(n)
    } else {
        Err(SavedFault::Field { at })
    }
}

/// A timer that is armed.
fn armed(cursor: &mut Cursor<'_>) -> Result<Timer, SavedFault>
    ensures { IsReadAt (λ timer. timer) result cursor.new (armed_timer.read cursor.old) }
{
    let deadline = deadline(cursor)?;
    let interval = interval(cursor)?;
    Ok(Timer { deadline, interval })
}

/// The zeros of a timer that is not armed.
fn unarmed(cursor: &mut Cursor<'_>) -> Result<(), SavedFault>
    ensures { IsReadAt (λ _. tt) result cursor.new (no_timer.read cursor.old) }
{
    zeros(cursor, 8)?;
    zeros(cursor, 8)
}

/// A timer, where it is armed.
pub(crate) fn timer(cursor: &mut Cursor<'_>) -> Result<Option<Timer>, SavedFault>
    ensures { IsReadAt (λ timer. timer) result cursor.new (timer_field.read cursor.old) }
{
    if flag(cursor)? {
        let timer = armed(cursor)?;
        return Ok(Some(timer));
    }
    unarmed(cursor)?;
    Ok(None)
}
