//! The calls on interrupts, the console, input words and the virtual processor: numbers 30 to 37.

ghost use Rattle.std.specs.Prelude.{◌≡◌, ◌%◌, ◌/◌, ◌^◌, ◌==◌, ◌≤◌, ◌<◌, ◌∷◌, true, drop};
ghost use Rattle.std.specs.Int.{bit_at, to_be_bytes, w32};
ghost use Rattle.xm_base.specs.declared.limits.TheConstants.{CONSOLE_BYTES};
ghost use Rattle.machine_model.specs.Caller.{a_of, answering, b_of, caller_bytes, is_room, with_written};
ghost use Rattle.machine_model.specs.ProcessorCalls.{clear_irqmask, flush_regwin, iret, read_input, set_irqmask, set_psr, set_tbr, write_console};
ghost use Rattle.machine_model.specs.OwnEffects.{input_read, printed, undone};
ghost use Rattle.machine_model.specs.Emission.{Unseen};
ghost use Rattle.system_state.specs.Serving.{IsCaller, IsServed, MayRead, caller_of};
ghost use Rattle.system_state.specs.State.{input_words_of};

use system_state::answering::{
    A, B, INVALID_PARAMETER, NOT_AVAILABLE, OUT_0, answer, argument, refused_if, room, text, write,
};
use system_state::{Act, CallSite, Note, Served, Sys, engine};
use virt_traps::IretFault;
use xm_base::CONSOLE_BYTES;
use xm_conf::Event;

/// The bit of a PSR that is set where traps are enabled.
const TRAPS_ENABLED: u32 = 1 << 5;

/// The outcome of a call that changed its caller alone.
const DONE: Served = Served {
    note: Note::Nothing,
    act: Act::Nothing,
};

/// Call 30, XM_set_irqmask(a): the interrupts of a are masked.
#[tactic(auto, unfolding(system_state::specs::Serving::caller_of, machine_model::specs::Caller::with_answer, machine_model::specs::ProcessorCalls::set_irqmask))]
pub fn set_irqmask(sys: &mut Sys, site: CallSite) -> Served
    // Called for a caller that exists.
    requires { IsCaller site sys.old }
    ensures { IsServed site.part Unseen (set_irqmask (caller_of site sys.old)) result sys.old sys.new }
{
    let mask = argument(sys, site, A);
    let own = sys.part_mut(site.part);
    own.virt.mask |= mask;
    own.core.set(OUT_0, 0);
    DONE
}

/// Call 31, XM_clear_irqmask(a): the interrupts of a are no longer masked.
#[tactic(auto, unfolding(system_state::specs::Serving::caller_of, machine_model::specs::Caller::with_answer, machine_model::specs::ProcessorCalls::clear_irqmask))]
pub fn clear_irqmask(sys: &mut Sys, site: CallSite) -> Served
    // Called for a caller that exists.
    requires { IsCaller site sys.old }
    ensures { IsServed site.part Unseen (clear_irqmask (caller_of site sys.old)) result sys.old sys.new }
{
    let mask = argument(sys, site, A);
    let own = sys.part_mut(site.part);
    own.virt.mask &= !mask;
    own.core.set(OUT_0, 0);
    DONE
}

/// Call 32, XM_write_console(a, b): b bytes at a, at most 1024, are printed.
#[tactic(auto, unfolding(machine_model::specs::ProcessorCalls::write_console))]
pub fn write_console(sys: &mut Sys, site: CallSite) -> Served
    // Called for a caller that exists.
    requires { IsCaller site sys.old }
    // Call 32, `XM_write_console`: at most 1024 bytes go to the console, and their number is the result.
    ensures { IsServed site.part Unseen (write_console (caller_of site sys.old)) result sys.old sys.new }
{
    let at = argument(sys, site, A);
    let size = argument(sys, site, B);
    if let Some(code) = refused_if(size > CONSOLE_BYTES, INVALID_PARAMETER) {
        return answer(sys, site, code);
    }
    if let Some(code) = text(sys, site, at, size) {
        return answer(sys, site, code);
    }
    print(sys, site, at, size)
}

// Prints bytes of the caller's memory, all of which it may read. Their number is the result.
#[tactic(auto, using(crate::proofs::ProcessorLemmas::prints_none, crate::proofs::ProcessorLemmas::prints_some), unfolding(system_state::specs::Serving::caller_of, machine_model::specs::Caller::with_answer, machine_model::specs::View::view_of, machine_model::specs::Partition::areas_of))]
fn print(sys: &mut Sys, site: CallSite, at: u32, size: u32) -> Served
    requires caller { IsCaller site sys.old }
    requires at { at ≡ a_of (caller_of site sys.old) }
    requires size { size ≡ b_of (caller_of site sys.old) }
    requires few { size ≤ CONSOLE_BYTES }
    requires readable { MayRead (caller_of site sys.old) at size }
    ensures { IsServed site.part Unseen (record (answering size (caller_of site sys.old).state) { emitted = printed (caller_bytes (caller_of site sys.old) at size) }) result sys.old sys.new }
{
    engine::set_result(sys, site.part, size);
    if size == 0 {
        DONE
    } else {
        Served {
            note: Note::Console { at, size },
            act: Act::Nothing,
        }
    }
}

/// Call 33, XM_read_input(a): the caller's next input word is written at a, and is used.
#[tactic(auto, unfolding(machine_model::specs::ProcessorCalls::read_input))]
pub fn read_input(sys: &mut Sys, site: CallSite) -> Served
    // Called for a caller that exists.
    requires { IsCaller site sys.old }
    // Call 33, `XM_read_input`: the next input word is written and used; where there is no room, it is not used.
    ensures { IsServed site.part Unseen (read_input (caller_of site sys.old)) result sys.old sys.new }
{
    let at = argument(sys, site, A);
    let used = sys.part(site.part).used;
    match sys.input(site.part, used) {
        None => answer(sys, site, NOT_AVAILABLE),
        Some(word) => hand_over(sys, site, at, word, used + 1),
    }
}

// Writes an input word where the caller asks for it, after which it has used this many.
fn hand_over(sys: &mut Sys, site: CallSite, at: u32, word: u32, used: usize) -> Served
    requires caller { IsCaller site sys.old }
    requires at { at ≡ a_of (caller_of site sys.old) }
    ensures { IsServed site.part Unseen (input_read (word ∷ drop used (input_words_of site.part sys.old.machine)) (caller_of site sys.old)) result sys.old sys.new }
{
    match room(sys, site, at, 4) {
        Some(code) => answer(sys, site, code),
        None => put_input(sys, site, at, word, used),
    }
}

// Writes an input word where there is room for it, after which the caller has used this many.
fn put_input(sys: &mut Sys, site: CallSite, at: u32, word: u32, used: usize) -> Served
    requires caller { IsCaller site sys.old }
    requires room { is_room (caller_of site sys.old) at 4 ≡ true }
    ensures { IsServed site.part Unseen (answering 0 (record (with_written at (to_be_bytes w32 word) (caller_of site sys.old).state) { inputs = drop used (input_words_of site.part sys.old.machine) })) result sys.old sys.new }
{
    write(sys, site, at, &word.to_be_bytes());
    use_inputs(sys, site, used)
}

// Ends a call after which its caller has used this many input words.
#[tactic(auto, unfolding(system_state::specs::Serving::caller_of, machine_model::specs::Caller::with_answer))]
fn use_inputs(sys: &mut Sys, site: CallSite, used: usize) -> Served
    requires { IsCaller site sys.old }
    ensures { IsServed site.part Unseen (answering 0 (record (caller_of site sys.old).state { inputs = drop used (input_words_of site.part sys.old.machine) })) result sys.old sys.new }
{
    let own = sys.part_mut(site.part);
    own.used = used;
    own.core.set(OUT_0, 0);
    DONE
}

/// Call 34, sparc_iret: back from a trap, with no result. Where a window cannot be filled the call is undone.
#[tactic(auto, unfolding(machine_model::specs::ProcessorCalls::iret))]
pub fn iret(sys: &mut Sys, site: CallSite) -> Served
    // Called for a caller that exists, with an aligned program counter, and with an aligned next program counter.
    requires caller { IsCaller site sys.old }
    requires pc { site.pc % 4 ≡ 0 }
    requires npc { site.npc % 4 ≡ 0 }
    ensures { IsServed site.part Unseen (iret (caller_of site sys.old)) result sys.old sys.new }
{
    match sys.return_in(site.part) {
        Ok(()) => DONE,
        Err(IretFault::Unaligned) => answer(sys, site, INVALID_PARAMETER),
        Err(IretFault::Stack) => undo(sys, site),
    }
}

/// Call 35, sparc_set_psr(a): the condition codes from bits 23 to 20, and from bit 5 whether traps are enabled.
#[tactic(auto, unfolding(system_state::specs::Serving::caller_of, machine_model::specs::Caller::with_answer, machine_model::specs::ProcessorCalls::set_psr, sparc_step::specs::Registers::with_icc))]
pub fn set_psr(sys: &mut Sys, site: CallSite) -> Served
    // Called for a caller that exists.
    requires { IsCaller site sys.old }
    ensures { IsServed site.part Unseen (set_psr (caller_of site sys.old)) result sys.old sys.new }
{
    let psr = argument(sys, site, A);
    let own = sys.part_mut(site.part);
    own.core.set_icc(icc_of(psr));
    own.virt.enabled = enabled_of(psr);
    own.core.set(OUT_0, 0);
    DONE
}

// The condition codes of a PSR.
fn icc_of(psr: u32) -> u8
    ensures value { result ≡ psr / 2 ^ 20 % 16 }
    ensures four { result < 16 }
{
    ((psr >> 20) & 15) as u8
}

// Whether traps are enabled in a PSR.
fn enabled_of(psr: u32) -> bool
    ensures { result ≡ (bit_at psr 5 == 1) }
{
    psr & TRAPS_ENABLED != 0
}

/// Call 36, sparc_set_tbr(a): the table of traps stands at a, a multiple of 4096.
#[tactic(auto, unfolding(system_state::specs::Serving::caller_of, machine_model::specs::Caller::with_answer, machine_model::specs::ProcessorCalls::set_tbr))]
pub fn set_tbr(sys: &mut Sys, site: CallSite) -> Served
    // Called for a caller that exists.
    requires { IsCaller site sys.old }
    ensures { IsServed site.part Unseen (set_tbr (caller_of site sys.old)) result sys.old sys.new }
{
    let base = argument(sys, site, A);
    let own = sys.part_mut(site.part);
    own.virt.base = base - base % 4096;
    own.core.set(OUT_0, 0);
    DONE
}

/// Call 37, sparc_flush_regwin: all windows but the current one are spilled. Where one cannot be spilled the call is undone, and
/// the spills before it stay.
#[tactic(auto, unfolding(machine_model::specs::ProcessorCalls::flush_regwin))]
pub fn flush_regwin(sys: &mut Sys, site: CallSite) -> Served
    // Called for a caller that exists, with an aligned program counter, and with an aligned next program counter.
    requires caller { IsCaller site sys.old }
    requires pc { site.pc % 4 ≡ 0 }
    requires npc { site.npc % 4 ≡ 0 }
    ensures { IsServed site.part Unseen (flush_regwin (caller_of site sys.old)) result sys.old sys.new }
{
    match sys.flush_in(site.part) {
        Ok(()) => answer(sys, site, 0),
        Err(_) => undo(sys, site),
    }
}

// Undoes a call that met a stack fault: the program is at it again.
#[tactic(auto, unfolding(system_state::specs::Serving::caller_of, sparc_step::specs::Registers::placed))]
fn undo(sys: &mut Sys, site: CallSite) -> Served
    requires caller { IsCaller site sys.old }
    requires pc { site.pc % 4 ≡ 0 }
    requires npc { site.npc % 4 ≡ 0 }
    ensures { IsServed site.part Unseen (undone (caller_of site sys.old) (caller_of site sys.old).state) result sys.old sys.new }
{
    let own = sys.part_mut(site.part);
    own.core.place(site.pc, site.npc);
    Served {
        note: Note::Nothing,
        act: Act::Event {
            event: Event::MemProtection,
            word: site.pc,
        },
    }
}
