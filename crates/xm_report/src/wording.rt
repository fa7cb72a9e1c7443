//! What each kind of line looks like.

ghost use Rattle.std.specs.Prelude.{◌≡◌, ◌≤◌, [], length};
ghost use Rattle.xm_report.specs.Report.{IsShort, console_text, end_part_text, end_whole_text, halted_text, health_text, line_value, move_text, moved_text, plan_text, struck_text, system_text, text_of, trace_text, whole_text};

use crate::line::{Line, Move};
use crate::pen::Pen;
use crate::place::{Place, place_text};
use xm_base::{CONSOLE_BYTES, PartId, State};
use xm_conf::{Action, Event};

// The word for whether the whole system has halted.
fn halted_text(halted: bool) -> &'static str
    ensures { result.now ≡ halted_text halted }
{
    if halted { "halted" } else { "running" }
}

impl Move {
    // The change's name as the report has it.
    fn text(self) -> &'static str
        ensures { result.now ≡ move_text self }
    {
        match self {
            Move::Halt => "HALT",
            Move::Suspend => "SUSPEND",
            Move::Resume => "RESUME",
            Move::Cold => "COLD",
            Move::Warm => "WARM",
        }
    }
}

#[tactic(auto, unfolding(crate::specs::Report::system_text))]
fn system_line(pen: &mut Pen, parts: u8, plans: u8, ticks: u64)
    requires { pen.old ≡ [] }
    ensures { pen.new ≡ system_text parts plans ticks }
{
    pen.field(b"SYSTEM parts=", u64::from(parts));
    pen.field(b" plans=", u64::from(plans));
    pen.field(b" ticks=", ticks);
    pen.text(b"\n");
}

#[tactic(auto, unfolding(crate::specs::Report::console_text))]
fn console_line(pen: &mut Pen, n: u64, p: PartId, bytes: &[u8])
    requires start { pen.old ≡ [] }
    requires short { length bytes.now ≤ CONSOLE_BYTES }
    ensures { pen.new ≡ console_text n p bytes.now }
{
    pen.field(b"[", n);
    pen.field(b"] P", u64::from(p));
    pen.text(b" CON ");
    pen.escaped(bytes);
    pen.text(b"\n");
}

#[tactic(auto, unfolding(crate::specs::Report::health_text))]
fn health_line(pen: &mut Pen, n: u64, p: PartId, event: Event, word: u32, action: Action)
    requires { pen.old ≡ [] }
    ensures { pen.new ≡ health_text n p event word action }
{
    pen.field(b"[", n);
    pen.field(b"] P", u64::from(p));
    pen.text(b" HM ");
    pen.name(event.text());
    pen.text(b" ");
    pen.word(word);
    pen.text(b" ");
    pen.name(action.text());
    pen.text(b"\n");
}

#[tactic(auto, unfolding(crate::specs::Report::trace_text))]
fn trace_line(pen: &mut Pen, n: u64, p: PartId, bits: u32, load: [u8; 8])
    requires { pen.old ≡ [] }
    ensures { pen.new ≡ trace_text n p bits load }
{
    pen.field(b"[", n);
    pen.field(b"] P", u64::from(p));
    pen.text(b" TRACE ");
    pen.word(bits);
    pen.text(b" ");
    pen.eight_bytes(load);
    pen.text(b"\n");
}

#[tactic(auto, unfolding(crate::specs::Report::moved_text))]
fn moved_line(pen: &mut Pen, n: u64, p: PartId, to: Move)
    requires { pen.old ≡ [] }
    ensures { pen.new ≡ moved_text n p to }
{
    pen.field(b"[", n);
    pen.field(b"] P", u64::from(p));
    pen.text(b" ");
    pen.name(to.text());
    pen.text(b"\n");
}

#[tactic(auto, unfolding(crate::specs::Report::struck_text))]
fn struck_line(pen: &mut Pen, n: u64, p: PartId, place: Place, bit: u8)
    requires { pen.old ≡ [] }
    ensures { pen.new ≡ struck_text n p place bit }
{
    pen.field(b"[", n);
    pen.field(b"] P", u64::from(p));
    pen.text(b" UPSET ");
    pen.text(&place_text(place));
    pen.field(b" bit ", u64::from(bit));
    pen.text(b"\n");
}

#[tactic(auto, unfolding(crate::specs::Report::whole_text))]
fn whole_line(pen: &mut Pen, n: u64, to: Move)
    requires { pen.old ≡ [] }
    ensures { pen.new ≡ whole_text n to }
{
    pen.field(b"[", n);
    pen.text(b"] XM ");
    pen.name(to.text());
    pen.text(b"\n");
}

#[tactic(auto, unfolding(crate::specs::Report::plan_text))]
fn plan_line(pen: &mut Pen, n: u64, plan: u8)
    requires { pen.old ≡ [] }
    ensures { pen.new ≡ plan_text n plan }
{
    pen.field(b"[", n);
    pen.field(b"] XM PLAN ", u64::from(plan));
    pen.text(b"\n");
}

#[tactic(auto, unfolding(crate::specs::Report::end_part_text))]
fn end_part_line(pen: &mut Pen, p: PartId, state: State, resets: u32, exec: u64, pc: u32)
    requires { pen.old ≡ [] }
    ensures { pen.new ≡ end_part_text p state resets exec pc }
{
    pen.field(b"END P", u64::from(p));
    pen.text(b" ");
    pen.name(state.text());
    pen.field(b" resets=", u64::from(resets));
    pen.field(b" exec=", exec);
    pen.text(b" pc=");
    pen.word(pc);
    pen.text(b"\n");
}

#[tactic(auto, unfolding(crate::specs::Report::end_whole_text))]
fn end_whole_line(pen: &mut Pen, halted: bool, plan: u8, clock: u64, ticks: u64)
    requires { pen.old ≡ [] }
    ensures { pen.new ≡ end_whole_text halted plan clock ticks }
{
    pen.text(b"END XM ");
    pen.name(halted_text(halted));
    pen.field(b" plan=", u64::from(plan));
    pen.field(b" clock=", clock);
    pen.field(b" ticks=", ticks);
    pen.text(b"\n");
}

/// Writes the text of a line.
pub(crate) fn write_text(pen: &mut Pen, line: &Line<'_>)
    requires start { pen.old ≡ [] }
    requires short { IsShort (line_value line.now) }
    ensures { pen.new ≡ text_of (line_value line.now) }
{
    match *line {
        Line::System {
            parts,
            plans,
            ticks,
        } => system_line(pen, parts, plans, ticks),
        Line::Console { n, p, bytes } => console_line(pen, n, p, bytes),
        Line::Health {
            n,
            p,
            event,
            word,
            action,
        } => health_line(pen, n, p, event, word, action),
        Line::Trace { n, p, bits, load } => trace_line(pen, n, p, bits, load),
        Line::Moved { n, p, to } => moved_line(pen, n, p, to),
        Line::Struck { n, p, place, bit } => struck_line(pen, n, p, place, bit),
        Line::Whole { n, to } => whole_line(pen, n, to),
        Line::PlanIs { n, plan } => plan_line(pen, n, plan),
        Line::EndPart {
            p,
            state,
            resets,
            exec,
            pc,
        } => end_part_line(pen, p, state, resets, exec, pc),
        Line::EndWhole {
            halted,
            plan,
            clock,
            ticks,
        } => end_whole_line(pen, halted, plan, clock, ticks),
    }
}
