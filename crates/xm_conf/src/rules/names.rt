//! Names that differ.

ghost use Rattle.std.specs.Prelude.{◌≡◌, ◌<◌, ◌≤◌, All, length};
ghost use Rattle.std.specs.Str.{bytes_eq};
ghost use Rattle.xm_conf.specs.Along.{along, head_of};
ghost use Rattle.xm_conf.specs.lemmas.FitsTerms.{HasCounts};
ghost use Rattle.xm_conf.specs.Limits.{most_parts};
ghost use Rattle.xm_conf.specs.Rules as rules;
ghost use Rattle.xm_conf.specs.declared.item.Item.TheVariants as item;

use super::broken::repeated;
use crate::first::first_along;
use crate::item::{Broken, Item};
use crate::name::Name;
use crate::part::Part;
use crate::port::Port;
use crate::raw::RawConf;

/// A UART with an earlier one's name.
fn uart_name(before: &[Name], name: &Name) -> Option<Broken>
    requires { length before.now ≤ 8 }
    ensures { result ≡ head_of (rules.repeated 3 item.Uart bytes_eq before.now name.now) }
{
    repeated(3, before, name, |a, b| *a == *b, Item::Uart)
}

/// The first UART with an earlier one's name.
fn uart_names(uarts: &[Name]) -> Option<Broken>
    requires { length uarts.now ≤ 8 }
    ensures { result ≡ head_of (along (rules.repeated 3 item.Uart bytes_eq) uarts.now) }
{
    first_along(uarts, uart_name)
}

/// Whether two ports have one name.
fn same_port(a: &Port, b: &Port) -> bool
    ensures { result ≡ rules.same_port a.now b.now }
{
    a.name == b.name
}

/// A port with an earlier one's name.
fn port_name(p: u8, before: &[Port], port: &Port) -> Option<Broken>
    requires { length before.now ≤ 32 }
    ensures { result ≡ head_of (rules.repeated 3 (item.Port p) rules.same_port before.now port.now) }
{
    repeated(3, before, port, same_port, |n| Item::Port(p, n))
}

/// The first port of a partition with an earlier one's name.
fn port_names(p: u8, ports: &[Port]) -> Option<Broken>
    requires { length ports.now ≤ 32 }
    ensures { result ≡ head_of (along (rules.repeated 3 (item.Port p) rules.same_port) ports.now) }
{
    first_along(ports, |before, port| port_name(p, before, port))
}

/// Whether two partitions have one name.
fn same_part(a: &Part, b: &Part) -> bool
    ensures { result ≡ rules.same_part a.now b.now }
{
    a.name == b.name
}

/// A partition with an earlier one's name, or its first port with an earlier one's name.
#[tactic(auto, using(crate::specs::lemmas::AlongLemmas::in_turn), unfolding(crate::specs::Rules::part_names))]
fn part_names(before: &[Part], part: &Part) -> Option<Broken>
    requires few { length before.now ≤ most_parts }
    requires ports { length part.now.ports ≤ 32 }
    ensures { result ≡ head_of (rules.part_names before.now part.now) }
{
    let broken = repeated(3, before, part, same_part, Item::Part);
    if broken.is_some() {
        return broken;
    }
    port_names(before.len() as u8, &part.ports)
}

/// The first partition or port with an earlier one's name.
fn parts_names(parts: &[Part]) -> Option<Broken>
    requires few { length parts.now ≤ most_parts }
    requires ports { All (λ part. length part.ports ≤ 32) parts.now }
    ensures { result ≡ head_of (along rules.part_names parts.now) }
{
    first_along(parts, part_names)
}

/// The first UART, partition or port with an earlier one's name.
#[tactic(auto, using(crate::specs::lemmas::AlongLemmas::in_turn), unfolding(crate::specs::Rules::rule_3))]
pub(super) fn rule_3(raw: &RawConf) -> Option<Broken>
    requires { HasCounts raw.now }
    ensures { result ≡ head_of (rules.rule_3 raw.now) }
{
    let broken = uart_names(&raw.uarts);
    if broken.is_some() {
        return broken;
    }
    parts_names(&raw.parts)
}
