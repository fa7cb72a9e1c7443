//! What one partition received in a tick, as a line.

use anyhow::Result;
use xm_base::{Mode, Order};
use xm_machine::{Cue, CueSlot, Sight, Traffic, WholeEvent};

/// Prints what a partition received, and ends the line.
pub(crate) fn put_cue(rt: &impl Print, cue: &Cue<'_>) -> Result<()> {
    print!(rt; "{} traffic ", mine_text(cue.mine))?;
    put_traffic(rt, cue.traffic)?;
    print!(rt; " order ")?;
    put_order(rt, cue.order)?;
    print!(rt; " whole {} seen ", whole_text(cue.whole))?;
    put_sight(rt, cue.seen)?;
    println!(rt)?;
    Ok(())
}

// Whose slot it was.
fn mine_text(mine: CueSlot) -> &'static str {
    match mine {
        CueSlot::Away => "away",
        CueSlot::Mine { first: true } => "mine first",
        CueSlot::Mine { first: false } => "mine",
    }
}

// What was done to the whole system.
fn whole_text(whole: WholeEvent) -> &'static str {
    match whole {
        WholeEvent::Nothing => "none",
        WholeEvent::Cold => "cold",
        WholeEvent::Warm => "warm",
        WholeEvent::Halt => "halt",
    }
}

// Prints what others did to a channel, which goes by the number of the partition's own port.
fn put_traffic(rt: &impl Print, traffic: Traffic<'_>) -> Result<()> {
    match traffic {
        Traffic::Nothing => print!(rt; "none")?,
        Traffic::Take { chan } => print!(rt; "take {chan}")?,
        Traffic::Signal { number } => print!(rt; "signal {number}")?,
        Traffic::Put { chan, bytes } => {
            print!(rt; "put {chan} ")?;
            put_bytes(rt, bytes)?;
        }
    }
    Ok(())
}

// Prints the order that another partition gave.
fn put_order(rt: &impl Print, order: Option<Order>) -> Result<()> {
    match order {
        None => print!(rt; "none")?,
        Some(Order::Halt) => print!(rt; "halt")?,
        Some(Order::Suspend) => print!(rt; "suspend")?,
        Some(Order::Resume) => print!(rt; "resume")?,
        Some(Order::Shutdown) => print!(rt; "shutdown")?,
        Some(Order::Reset { mode, status }) => print!(rt; "{} {status}", mode_text(mode))?,
    }
    Ok(())
}

// A reset's mode.
fn mode_text(mode: Mode) -> &'static str {
    match mode {
        Mode::Cold => "cold",
        Mode::Warm => "warm",
    }
}

// Prints what an observing call was shown.
fn put_sight(rt: &impl Print, seen: Sight<'_>) -> Result<()> {
    match seen {
        Sight::Nothing => print!(rt; "none")?,
        Sight::NotKept => print!(rt; "not kept")?,
        Sight::Words(bytes) => put_bytes(rt, bytes)?,
    }
    Ok(())
}

// Prints bytes, two hexadecimal digits each.
fn put_bytes(rt: &impl Print, bytes: &[u8]) -> Result<()> {
    for byte in bytes {
        print!(rt; "{byte:02x}")?;
    }
    Ok(())
}
