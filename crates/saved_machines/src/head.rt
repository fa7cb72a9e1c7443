//! The head of a saved machine, and its reading, field by field.

ghost use Rattle.std.specs.Prelude.{◌≡◌, ◌+◌, ◌^◌, ◌&&◌, ◌<◌, ◌≤◌, IfOk, length, nat_le, nat_lt, codes};
ghost use Rattle.file_headers.specs.Gives.{IsRead};
ghost use Rattle.file_headers.specs.Heads.{unsealed};
ghost use Rattle.file_headers.specs.lemmas.GivesTerms.{IsReadAt};
ghost use Rattle.cyclic_plans.specs.Slots.{frame_of};
ghost use Rattle.xm_base.specs.Cursor.{past};
ghost use Rattle.codecs.specs.Codec.{raw_bytes};
ghost use Rattle.saved_machines.specs.Reading.{clock_value, head_in, head_read, head_value};
ghost use Rattle.saved_machines.specs.SavedFields.{any_word, byte_where, double_word_where, flag_field, saved_faults, saved_short, zeros};
ghost use Rattle.saved_machines.specs.SavedFormat.{asked_format, clock_format, container_format, halted_format, head_format};

use crate::fault::SavedFault;
use crate::fields::{byte_below, digest, double_up_to, flag, word, zero};
use file_headers::unsealed;
use xm_base::{Cursor, TICKS};
use xm_conf::Conf;

/// The name of the format.
const MAGIC: [u8; 4] = *b"XMSM";

/// The latest version.
const VERSION: u16 = 1;

/// The bytes of name, version and length.
const LEAD: usize = 10;

/// The plan clock of a saved machine.
#[derive(Clone, Copy, Debug, PartialEq, Eq)]
pub struct SavedClock {
    /// The plan that runs.
    pub plan: u8,
    /// When its frame began.
    pub frame_start: u64,
    /// The plan that is asked for.
    pub asked: Option<u8>,
}

/// What a saved machine has of the whole.
#[derive(Clone, Copy, Debug, PartialEq, Eq)]
pub struct Head {
    /// The digest of its container.
    pub container: [u8; 16],
    /// The ticks that are done.
    pub ticks: u64,
    /// The hardware clock.
    pub time: u64,
    /// How often the hypervisor was reset.
    pub resets: u32,
    /// Whether it has halted.
    pub halted: bool,
    /// The plan clock.
    pub clock: SavedClock,
}

/// When a frame of this length began that the time is in.
fn frame_start(cursor: &mut Cursor<'_>, frame: u64, time: u64) -> Result<u64, SavedFault>
    ensures { IsReadAt (λ n. n) result cursor.new ((double_word_where (λ start. nat_le start time && nat_lt time (start + frame))).read cursor.old) }
{
    let at = cursor.at();
    let start = cursor.u64()?;
    if start <= time && time - start < frame {
        Ok(start)
    } else {
        Err(SavedFault::Field { at })
    }
}

/// The plan that is asked for, of this many.
fn asked(cursor: &mut Cursor<'_>, plans: usize) -> Result<Option<u8>, SavedFault>
    ensures { IsReadAt (λ found. found) result cursor.new ((asked_format plans).read cursor.old) }
{
    if flag(cursor)? {
        let plan = byte_below(cursor, plans)?;
        return Ok(Some(plan));
    }
    zero(cursor)?;
    Ok(None)
}

/// The length of a plan's frame, 0 where there is no such plan.
#[tactic(auto, unfolding(cyclic_plans::specs::Slots::frame_of))]
fn frame(conf: &Conf, plan: u8) -> u64
    ensures { result ≡ frame_of conf.now plan }
{
    match conf.raw().plans.get(usize::from(plan)) {
        Some(plan) => u64::from(plan.frame),
        None => 0,
    }
}

/// The plan clock at a time.
fn clock(cursor: &mut Cursor<'_>, conf: &Conf, time: u64) -> Result<SavedClock, SavedFault>
    ensures { IsReadAt clock_value result cursor.new ((clock_format conf.now time).read cursor.old) }
{
    let plans = conf.raw().plans.len();
    let plan = byte_below(cursor, plans)?;
    let frame_start = frame_start(cursor, frame(conf, plan), time)?;
    let asked = asked(cursor, plans)?;
    Ok(SavedClock {
        plan,
        frame_start,
        asked,
    })
}

/// The digest of the container, after the bytes of name, version and length.
fn container(cursor: &mut Cursor<'_>, wanted: [u8; 16]) -> Result<[u8; 16], SavedFault>
    requires { cursor.old.at ≡ 0 }
    ensures { IsReadAt (λ found. found) result cursor.new ((container_format wanted).read (past 10 cursor.old)) }
{
    if cursor.take(LEAD).is_err() {
        return Err(SavedFault::Short { at: LEAD });
    }
    let stored = digest(cursor)?;
    if stored == wanted {
        Ok(stored)
    } else {
        Err(SavedFault::Container {
            stored,
            found: wanted,
        })
    }
}

/// Whether it has halted after these ticks, in one that is among the most, too.
fn halted(cursor: &mut Cursor<'_>, ticks: u64) -> Result<bool, SavedFault>
    requires { ticks ≤ 4000000000 }
    ensures { IsReadAt (λ halted. halted) result cursor.new ((halted_format ticks).read cursor.old) }
{
    let at = cursor.at();
    let halted = flag(cursor)?;
    if ticks + u64::from(halted) <= TICKS {
        Ok(halted)
    } else {
        Err(SavedFault::Field { at })
    }
}

/// The head, after the bytes of name, version and length.
pub(crate) fn first_head(
    cursor: &mut Cursor<'_>,
    conf: &Conf,
    wanted: [u8; 16],
) -> Result<Head, SavedFault>
    requires { cursor.old.at ≡ 0 }
    ensures value { IsReadAt head_value result cursor.new ((head_format conf.now wanted).read (past 10 cursor.old)) }
    ensures ticks { IfOk result (λ head. head.ticks ≤ 4000000000) }
{
    let container = container(cursor, wanted)?;
    let ticks = double_up_to(cursor, TICKS)?;
    let time = double_up_to(cursor, ticks)?;
    let resets = word(cursor)?;
    let halted = halted(cursor, ticks)?;
    let clock = clock(cursor, conf, time)?;
    Ok(Head {
        container,
        ticks,
        time,
        resets,
        halted,
        clock,
    })
}

/// The head in the bytes before the digest.
#[tactic(auto, unfolding(crate::specs::Reading::head_in))]
fn whole_head(conf: &Conf, wanted: [u8; 16], before: &[u8]) -> Result<Head, SavedFault>
    ensures { IsRead head_value result (head_in conf.now wanted before.now) }
{
    let mut cursor = Cursor::new(before);
    first_head(&mut cursor, conf, wanted)
}

/// The bytes before the digest, where it is theirs.
pub(crate) fn unsealed_machine(bytes: &[u8]) -> Result<&[u8], SavedFault>
    ensures { IsRead (λ before. before.now) result (unsealed saved_faults (codes "XMSM") 1 bytes.now) }
{
    Ok(unsealed(bytes, MAGIC, VERSION)?)
}

/// Reads the head of a saved machine that runs a container: how far it ran and in which plan, or the first fault up to there.
#[tactic(auto, unfolding(crate::specs::Reading::head_read))]
pub fn read_head(conf: &Conf, container: [u8; 16], bytes: &[u8]) -> Result<Head, SavedFault>
    // The head is the one that the bytes spell; a fault is the first one of the whole file, or of its fields up to the end of the head.
    ensures value { IsRead head_value result (head_read conf.now container bytes.now) }
{
    let before = unsealed_machine(bytes)?;
    whole_head(conf, container, before)
}
