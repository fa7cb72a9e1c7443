//! A configuration as it is given, whether or not it meets the rules.

use crate::channel::Chan;
use crate::link::Link;
use crate::name::Name;
use crate::part::Part;
use crate::plan::Plan;
use std::marker::Model;

/// A region of memory.
#[derive(Clone, Copy, Debug, PartialEq, Eq)]
pub struct Region {
    /// Its first address.
    pub start: u32,
    /// How many bytes it has.
    pub size: u32,
}

/// A configuration, whether or not it meets the rules.
#[derive(Debug, Drop)]
pub struct RawConf {
    pub name: Name,
    pub regions: Vec<Region>,
    /// How many bytes the hypervisor has, from the start of region 0.
    pub hv_size: u32,
    /// The names of the UARTs.
    pub uarts: Vec<Name>,
    pub plans: Vec<Plan>,
    pub parts: Vec<Part>,
    pub chans: Vec<Chan>,
    pub links: Vec<Link>,
}

impl Model for RawConf {
    ghost use Rattle.xm_conf.specs.Configuration as plain;

    ghost Value = { plain.Conf };

    ghost view = { λ raw. record { name = raw.name; regions = raw.regions.items; hv_size = raw.hv_size; uarts = raw.uarts.items; plans = raw.plans.items; parts = raw.parts.items; chans = raw.chans.items; links = raw.links.items } };
}
