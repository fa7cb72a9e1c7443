//! The registers as a processor has them cached.

ghost use borrow.Rule.Slice.PartMut.{put_mid};
ghost use Rattle.std.specs.Prelude.{ℕ, ◌≡◌, ◌≢◌, ◌*◌, ◌+◌, ◌%◌, ◌<◌, ◌≤◌, drop, false, length, slice_index, slice_set, take};
ghost use Rattle.sparc_step.specs.Cached.{register_of, windows_with};
ghost use Rattle.sparc_step.specs.Conditions.{codes_of_difference, codes_of_result, codes_of_sum};
ghost use Rattle.sparc_step.specs.lemmas.CachedTerms.{with_first};
ghost use Rattle.sparc_step.specs.lemmas.CachedLemmas.{put_at};
ghost use Rattle.sparc_step.specs.Registers.{
  advanced,
  branched,
  in_window,
  locals_and_ins,
  placed,
  register_at,
  sent,
  skipped,
  window_filled,
  with_icc,
  with_inv,
  with_locals_and_ins,
  with_register,
  with_y,
};

use crate::codes::Codes;
use crate::registers::Core;
use std::marker::Model;

/// The registers of a guest's processor, those of the current window cached by their numbers.
///
/// It is the form for many instructions: a `Core` is taken to hand before them, and asked for after.
#[derive(Debug, Drop)]
pub struct Processor {
    // The registers of the current window, and a word that is none of them, for results that are dropped. They stand first, so that one
    // address serves for them and for all else.
    cached: [u32; 33],
    pc: u32,
    npc: u32,
    y: u32,
    icc: Codes,
    cwp: u8,
    inv: u8,
    // The windows; what stands here of the current one is out of date.
    windows: [u32; 128],
}

impl Model for Processor {
    ghost use Rattle.sparc_step.specs.Cached.{IsCached, gathered};
    ghost use Rattle.sparc_step.specs.Registers.{Registers};

    ghost Value = { Registers };

    ghost view = { λ p. gathered p.pc p.npc p.y p.icc p.cwp p.inv p.cached p.windows };

    ghost invariant = { λ p. IsCached p.pc p.npc p.y p.icc p.cwp p.inv p.cached p.windows };
}

impl Processor {
    /// Takes registers to hand.
    #[tactic(auto, unfolding(crate::specs::Cached::gathered))]
    pub fn of(core: &Core) -> Processor
        // The registers, those of the current window cached.
        ensures { result ≡ core.now }
    {
        let mut cached = [0; 33];
        take_globals(&mut cached, &core.globals);
        take_window(&mut cached, &core.windows, core.cwp);
        Processor {
            pc: core.pc,
            npc: core.npc,
            y: core.y,
            icc: Codes::of(core.icc),
            cwp: core.cwp,
            inv: core.inv,
            cached,
            windows: core.windows,
        }
    }

    /// The registers as they are now.
    #[tactic(auto, unfolding(crate::specs::Cached::gathered))]
    pub fn core(&self) -> Core
        // The registers, none of them cached.
        ensures { result ≡ self.now }
    {
        let mut globals = [0; 8];
        give_globals(&mut globals, &self.cached);
        let mut windows = self.windows;
        write_window(&mut windows, &self.cached, self.cwp);
        Core {
            pc: self.pc,
            npc: self.npc,
            y: self.y,
            icc: self.icc.value(),
            cwp: self.cwp,
            inv: self.inv,
            globals,
            windows,
        }
    }

    /// The program counter.
    #[tactic(auto, unfolding(crate::specs::Cached::gathered))]
    pub fn pc(&self) -> u32
        // The program counter.
        ensures value { result ≡ self.now.pc }
        // It is a multiple of 4.
        ensures aligned { result % 4 ≡ 0 }
    {
        // The two low bits are 0, and the compiler needs to know.
        self.pc & 0xffff_fffc
    }

    /// Where the program goes on after the instruction at `pc`.
    #[tactic(auto, unfolding(crate::specs::Cached::gathered))]
    pub fn npc(&self) -> u32
        // The next program counter.
        ensures value { result ≡ self.now.npc }
        // It is a multiple of 4.
        ensures aligned { result % 4 ≡ 0 }
    {
        self.npc
    }

    /// Puts the program counters.
    #[tactic(auto, unfolding(crate::specs::Registers::placed, crate::specs::Cached::gathered))]
    pub fn place(&mut self, pc: u32, npc: u32)
        // Called with an aligned program counter and with an aligned next program counter.
        requires pc { pc % 4 ≡ 0 }
        requires npc { npc % 4 ≡ 0 }
        ensures { self.new ≡ placed pc npc self.old }
    {
        self.pc = pc;
        self.npc = npc;
    }

    /// The Y register.
    #[tactic(auto, unfolding(crate::specs::Cached::gathered))]
    pub fn y(&self) -> u32
        // The Y register.
        ensures { result ≡ self.now.y }
    {
        self.y
    }

    /// The condition codes.
    #[tactic(auto, unfolding(crate::specs::Cached::gathered))]
    pub fn icc(&self) -> u8
        // The condition codes.
        ensures value { result ≡ self.now.icc }
        // They are four bits.
        ensures four { result < 16 }
    {
        self.icc.value()
    }

    /// The current window.
    #[tactic(auto, unfolding(crate::specs::Cached::gathered))]
    pub fn cwp(&self) -> u8
        // The number of the current window.
        ensures value { result ≡ self.now.cwp }
        // It is below 8.
        ensures below { result < 8 }
    {
        self.cwp
    }

    /// The window that a program may not enter.
    #[tactic(auto, unfolding(crate::specs::Cached::gathered))]
    pub fn inv(&self) -> u8
        // The number of the invalid window.
        ensures value { result ≡ self.now.inv }
        // It is below 8.
        ensures below { result < 8 }
        // It is not the current window.
        ensures other { result ≢ self.now.cwp }
    {
        self.inv
    }

    /// Makes another window that which a program may not enter.
    #[tactic(auto, unfolding(crate::specs::Registers::with_inv, crate::specs::Cached::gathered))]
    pub fn set_inv(&mut self, window: u8)
        // Called for a window below 8 that is not the current one.
        requires window { window < 8 }
        requires other { window ≢ self.old.cwp }
        ensures { self.new ≡ with_inv self.old window }
    {
        self.inv = window;
    }

    /// The stack pointer of a window, which is neither the current one nor the one above it.
    #[inline(always)]
    pub fn stack_of(&self, window: u8) -> u32
        // Called for a window below 8 that is not the current one and that is not the one above it.
        requires window { window < 8 }
        requires other { window ≢ self.now.cwp }
        requires above { window ≢ (self.now.cwp + 1) % 8 }
        ensures { result ≡ slice_index self.now.windows (16 * window + 6) }
    {
        self.windows[16 * usize::from(window) + 6]
    }

    /// The locals of a window, and after them its ins. The window is neither the current one nor the one below it.
    #[inline(always)]
    pub fn saved(&self, window: u8) -> [u32; 16]
        // Called for a window below 8 that is not the current one and that is not the one below it.
        requires window { window < 8 }
        requires other { window ≢ self.now.cwp }
        requires below { (window + 1) % 8 ≢ self.now.cwp }
        // The locals and ins of a window of which nothing is cached.
        ensures saved { result ≡ locals_and_ins self.now.windows window }
        // The eight windows have 128 registers.
        ensures whole { length self.now.windows ≡ 128 }
    {
        let mut words = [0; 16];
        take_first(&mut words, &self.windows, 16 * usize::from(window) + 8);
        let ins = 16 * usize::from((window + 1) % 8);
        copy_words(&mut words, 8, &self.windows, ins, 8);
        words
    }

    /// The value of a register of the current window.
    #[tactic(auto, using(crate::specs::lemmas::CachedLemmas::register_at_gathered))]
    pub fn get(&self, r: u8) -> u32
        // Called for a register below 32.
        requires { r < 32 }
        // The value of a register of the current window.
        ensures value { result ≡ register_at self.now r }
        // Register 0 is zero.
        ensures zero { r ≡ 0 → result ≡ 0 }
    {
        self.cached[usize::from(r)]
    }

    /// Sets a register of the current window.
    #[tactic(auto, using(crate::specs::lemmas::CachedLemmas::with_register_gathered))]
    pub fn set(&mut self, r: u8, value: u32)
        // Called for a register below 32.
        requires { r < 32 }
        ensures { self.new ≡ with_register self.old r value }
    {
        set_cached(&mut self.cached, r, value);
    }

    /// Sets a register of the current window that is not register 0.
    #[inline(always)]
    #[tactic(auto, using(crate::specs::lemmas::CachedLemmas::with_register_gathered))]
    pub fn set_held(&mut self, r: u8, value: u32)
        // Called for a register below 32 that is not register 0.
        requires r { r < 32 }
        requires held { 0 < r }
        ensures { self.new ≡ with_register self.old r value }
    {
        put_held(&mut self.cached, r, value);
    }

    /// Sets a register of the current window that is not register 0, or, by the number 32, none.
    #[inline(always)]
    #[tactic(auto, using(crate::specs::lemmas::CachedLemmas::put_gathered))]
    pub fn put(&mut self, r: u8, value: u32)
        // Called for a number from 1 to 32.
        requires r { r < 33 }
        requires held { 0 < r }
        // The register has the value, and nothing else changes; 32 stands for register 0, which drops it.
        ensures { self.new ≡ with_register self.old (register_of r) value }
    {
        put_word(&mut self.cached, r, value);
    }

    /// Goes on to the next instruction.
    #[tactic(auto, unfolding(crate::specs::Registers::advanced, crate::specs::Cached::gathered))]
    pub(crate) fn advance(&mut self)
        ensures { self.new ≡ advanced self.old }
    {
        self.pc = self.npc;
        self.npc = self.npc.wrapping_add(4);
    }

    /// Goes on to the next instruction, and after it to the target.
    #[tactic(auto, unfolding(crate::specs::Registers::branched, crate::specs::Cached::gathered))]
    pub(crate) fn branch(&mut self, target: u32)
        requires { target % 4 ≡ 0 }
        ensures { self.new ≡ branched self.old target }
    {
        self.pc = self.npc;
        self.npc = target;
    }

    /// Goes on after the next instruction, which is annulled.
    #[tactic(auto, unfolding(crate::specs::Registers::skipped, crate::specs::Cached::gathered))]
    pub(crate) fn skip(&mut self)
        ensures { self.new ≡ skipped self.old }
    {
        self.pc = self.npc.wrapping_add(4);
        self.npc = self.npc.wrapping_add(8);
    }

    /// Goes on at the target, the next instruction being annulled.
    #[tactic(auto, unfolding(crate::specs::Registers::sent, crate::specs::Cached::gathered))]
    pub(crate) fn send(&mut self, target: u32)
        requires { target % 4 ≡ 0 }
        ensures { self.new ≡ sent self.old target }
    {
        self.pc = target;
        self.npc = target.wrapping_add(4);
    }

    /// Enters a window that is valid.
    #[inline(never)]
    #[tactic(auto, unfolding(crate::specs::Registers::in_window, crate::specs::Cached::gathered))]
    pub fn enter(&mut self, window: u8)
        // Called for a window below 8 that is not the invalid one.
        requires window { window < 8 }
        requires valid { window ≢ self.old.inv }
        ensures { self.new ≡ in_window self.old window }
    {
        write_window(&mut self.windows, &self.cached, self.cwp);
        take_window(&mut self.cached, &self.windows, window);
        self.cwp = window;
    }

    /// Enters the window below, which is valid: what a SAVE does.
    #[inline(always)]
    #[tactic(auto, unfolding(crate::specs::Registers::in_window, crate::specs::Cached::gathered))]
    pub fn enter_below(&mut self)
        // Called where the window below is not the invalid one.
        requires valid { (self.old.cwp + 7) % 8 ≢ self.old.inv }
        ensures { self.new ≡ in_window self.old ((self.old.cwp + 7) % 8) }
    {
        let below = (self.cwp + 7) % 8;
        go_below(&mut self.cached, &mut self.windows, self.cwp, below);
        self.cwp = below;
    }

    /// Enters the window above, which is valid: what a RESTORE does.
    #[inline(always)]
    #[tactic(auto, unfolding(crate::specs::Registers::in_window, crate::specs::Cached::gathered))]
    pub fn enter_above(&mut self)
        // Called where the window above is not the invalid one.
        requires valid { (self.old.cwp + 1) % 8 ≢ self.old.inv }
        ensures { self.new ≡ in_window self.old ((self.old.cwp + 1) % 8) }
    {
        let above = (self.cwp + 1) % 8;
        let words = self.saved(above);
        go_above(&mut self.cached, &mut self.windows, self.cwp, above, &words);
        self.cwp = above;
    }

    /// Enters the window above, which is the invalid one, with its locals and after them its ins: what a RESTORE does whose window is
    /// filled. The window above it becomes the invalid one.
    #[inline(always)]
    #[tactic(auto, unfolding(crate::specs::Registers::in_window, crate::specs::Registers::with_inv, crate::specs::Registers::with_saved, crate::specs::Registers::window_filled, crate::specs::Cached::gathered))]
    pub fn enter_filled(&mut self, words: &[u32; 16])
        // Called where the window above is the invalid one.
        requires needed { (self.old.cwp + 1) % 8 ≡ self.old.inv }
        // The invalid window is filled with these registers and entered.
        ensures entered { self.new ≡ in_window (window_filled self.old words.now) self.old.inv }
        // The registers of the current window are not changed by what is filled in.
        ensures apart { (r : ℕ) → r < 32 → register_at (window_filled self.old words.now) r ≡ register_at self.old r }
        // The eight windows have 128 registers.
        ensures whole { length self.old.windows ≡ 128 }
    {
        let above = self.inv;
        go_filled(&mut self.cached, &mut self.windows, self.cwp, above, words);
        self.inv = (above + 1) % 8;
        self.cwp = above;
    }

    /// Fills the invalid window with its locals and after them its ins, and stays in the current one. The window above it becomes the
    /// invalid one.
    #[tactic(auto, unfolding(crate::specs::Registers::with_inv, crate::specs::Registers::window_filled, crate::specs::Cached::gathered))]
    pub fn fill_window(&mut self, words: &[u32; 16])
        // Called where the window above the invalid one is not the current one.
        requires { (self.old.inv + 1) % 8 ≢ self.old.cwp }
        // The invalid window is filled with these registers, and no other window changes.
        ensures filled { self.new ≡ window_filled self.old words.now }
        // The number of the invalid window is below 8.
        ensures window { self.old.inv < 8 }
        // The eight windows have 128 registers.
        ensures whole { length self.old.windows ≡ 128 }
    {
        let above = (self.inv + 1) % 8;
        copy_words(
            &mut self.windows,
            16 * usize::from(self.inv) + 8,
            words,
            0,
            8,
        );
        copy_words(&mut self.windows, 16 * usize::from(above), words, 8, 8);
        self.inv = above;
    }

    /// Sets Y.
    #[tactic(auto, unfolding(crate::specs::Registers::with_y, crate::specs::Cached::gathered))]
    pub fn set_y(&mut self, y: u32)
        ensures { self.new ≡ with_y self.old y }
    {
        self.y = y;
    }

    /// Sets the condition codes.
    #[tactic(auto, unfolding(crate::specs::Registers::with_icc, crate::specs::Cached::gathered))]
    pub fn set_icc(&mut self, icc: u8)
        // Called with condition codes of four bits.
        requires { icc < 16 }
        ensures { self.new ≡ with_icc self.old icc }
    {
        self.icc.set(icc);
    }

    /// The condition codes become those of a comparison.
    #[inline(always)]
    #[tactic(auto, unfolding(crate::specs::Registers::with_icc, crate::specs::Cached::gathered))]
    pub fn compared(&mut self, a: u32, b: u32)
        // The condition codes are those of the difference, and nothing else changes.
        ensures { self.new ≡ with_icc self.old (codes_of_difference a b false) }
    {
        self.icc.compared(a, b);
    }

    /// The condition codes become those of a sum.
    #[inline(always)]
    #[tactic(auto, unfolding(crate::specs::Registers::with_icc, crate::specs::Cached::gathered))]
    pub fn added(&mut self, a: u32, b: u32)
        // The condition codes are those of the sum, and nothing else changes.
        ensures { self.new ≡ with_icc self.old (codes_of_sum a b false) }
    {
        self.icc.added(a, b);
    }

    /// The condition codes become those of a result of logic.
    #[inline(always)]
    #[tactic(auto, unfolding(crate::specs::Registers::with_icc, crate::specs::Cached::gathered))]
    pub fn tested(&mut self, value: u32)
        // The condition codes are those of the result, and nothing else changes.
        ensures { self.new ≡ with_icc self.old (codes_of_result value false) }
    {
        self.icc.tested(value);
    }
}

// Sets a register; register 0 stays zero.
fn set_cached(cached: &mut [u32; 33], r: u8, value: u32)
    requires { r < 32 }
    ensures { cached.new ≡ put_at cached.old r value }
{
    cached[usize::from(r)] = value;
    cached[0] = 0;
}

// Sets a register that is not register 0, which is zero.
#[inline(always)]
#[tactic(auto, using(crate::specs::lemmas::CachedLemmas::put_at_held))]
fn put_held(cached: &mut [u32; 33], r: u8, value: u32)
    requires r { r < 32 }
    requires held { 0 < r }
    requires zero { slice_index cached.old 0 ≡ 0 }
    ensures { cached.new ≡ put_at cached.old r value }
{
    cached[usize::from(r)] = value;
}

// Sets a word of those that are cached, which is not register 0.
#[inline(always)]
fn put_word(cached: &mut [u32; 33], r: u8, value: u32)
    requires r { r < 33 }
    requires held { 0 < r }
    ensures value { cached.new ≡ slice_set cached.old r value }
    ensures zero { slice_index cached.new 0 ≡ slice_index cached.old 0 }
{
    cached[usize::from(r)] = value;
}

// Takes the globals to hand.
fn take_globals(cached: &mut [u32], globals: &[u32])
    requires cached { length cached.old ≡ 33 }
    requires globals { length globals.now ≡ 8 }
    ensures { take 8 cached.new ≡ globals.now }
{
    cached[..8].copy_from_slice(globals);
}

// Gives the globals back.
fn give_globals(globals: &mut [u32], cached: &[u32])
    requires globals { length globals.old ≡ 8 }
    requires cached { length cached.now ≡ 33 }
    ensures { globals.new ≡ take 8 cached.now }
{
    globals.copy_from_slice(&cached[..8]);
}

// Takes a window to hand: its outs and locals, and its ins.
#[inline(always)]
fn take_window(cached: &mut [u32], windows: &[u32], window: u8)
    requires cached { length cached.old ≡ 33 }
    requires windows { length windows.now ≡ 128 }
    requires window { window < 8 }
    ensures windows { windows_with window cached.new windows.now ≡ windows.now }
    ensures globals { take 8 cached.new ≡ take 8 cached.old }
{
    copy_words(cached, 8, windows, 16 * usize::from(window), 16);
    copy_words(cached, 24, windows, 16 * usize::from((window + 1) % 8), 8);
}

// Writes what is cached of a window back to the windows.
#[inline(always)]
fn write_window(windows: &mut [u32], cached: &[u32], window: u8)
    requires cached { length cached.now ≡ 33 }
    requires windows { length windows.old ≡ 128 }
    requires window { window < 8 }
    ensures { windows.new ≡ windows_with window cached.now windows.old }
{
    copy_words(windows, 16 * usize::from(window), cached, 8, 16);
    copy_words(windows, 16 * usize::from((window + 1) % 8), cached, 24, 8);
}

// Takes the window below to hand. Its ins are the outs of the one that is cached, and stay in hand.
#[inline(always)]
fn go_below(cached: &mut [u32], windows: &mut [u32], window: u8, below: u8)
    requires cached { length cached.old ≡ 33 }
    requires windows { length windows.old ≡ 128 }
    requires window { window < 8 }
    requires below { below ≡ (window + 7) % 8 }
    ensures windows { windows_with below cached.new windows.new ≡ windows_with window cached.old windows.old }
    ensures globals { take 8 cached.new ≡ take 8 cached.old }
{
    copy_words(windows, 16 * usize::from(window) + 8, cached, 16, 8);
    copy_words(windows, 16 * usize::from((window + 1) % 8), cached, 24, 8);
    move_eight(cached, 8, 24);
    copy_words(cached, 8, windows, 16 * usize::from(below), 16);
}

// Takes the window above to hand, whose locals and ins are these.
#[inline(always)]
fn go_above(cached: &mut [u32], windows: &mut [u32], window: u8, above: u8, words: &[u32])
    requires cached { length cached.old ≡ 33 }
    requires windows { length windows.old ≡ 128 }
    requires words { words.now ≡ locals_and_ins (windows_with window cached.old windows.old) above }
    requires counted { length words.now ≡ 16 }
    requires window { window < 8 }
    requires above { above ≡ (window + 1) % 8 }
    ensures windows { windows_with above cached.new windows.new ≡ windows_with window cached.old windows.old }
    ensures globals { take 8 cached.new ≡ take 8 cached.old }
{
    go_filled(cached, windows, window, above, words);
}

// Takes the window above to hand with other locals and ins. Its outs are the ins of the one that is cached, and stay in hand.
#[inline(always)]
fn go_filled(cached: &mut [u32], windows: &mut [u32], window: u8, above: u8, words: &[u32])
    requires cached { length cached.old ≡ 33 }
    requires windows { length windows.old ≡ 128 }
    requires words { length words.now ≡ 16 }
    requires window { window < 8 }
    requires above { above ≡ (window + 1) % 8 }
    ensures windows { windows_with above cached.new windows.new ≡ with_locals_and_ins (windows_with window cached.old windows.old) above words.now }
    ensures globals { take 8 cached.new ≡ take 8 cached.old }
{
    copy_words(windows, 16 * usize::from(window), cached, 8, 16);
    move_eight(cached, 24, 8);
    copy_words(cached, 16, words, 0, 16);
}

// Copies eight words from a place on to another place of the same.
#[inline(always)]
fn move_eight(words: &mut [u32], from: usize, to: usize)
    requires from { from + 8 ≤ length words.old }
    requires to { to + 8 ≤ length words.old }
    ensures { words.new ≡ put_mid to 8 words.old (take 8 (drop from words.old)) }
{
    words.copy_within(from..from + 8, to);
}

// Takes eight words of the windows from a place on as the first of sixteen.
#[inline(always)]
#[tactic(auto, unfolding(crate::specs::lemmas::CachedTerms::with_first))]
fn take_first(words: &mut [u32], windows: &[u32], at: usize)
    requires words { length words.old ≡ 16 }
    requires windows { at + 8 ≤ length windows.now }
    ensures { words.new ≡ with_first words.old (take 8 (drop at windows.now)) }
{
    copy_words(words, 0, windows, at, 8);
}

// Copies this many words from a place on to a place.
#[inline(always)]
fn copy_words(to: &mut [u32], at: usize, from: &[u32], start: usize, count: usize)
    requires to { at + count ≤ length to.old }
    requires from { start + count ≤ length from.now }
    ensures { to.new ≡ put_mid at count to.old (take count (drop start from.now)) }
{
    to[at..at + count].copy_from_slice(&from[start..start + count]);
}
