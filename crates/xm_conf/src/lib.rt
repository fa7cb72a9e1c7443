//! A configuration and the rules that it meets: partitions, plans, channels and links, with their names, health events and actions.
#![tactic(auto)]

mod channel;
mod conf;
mod first;
mod health;
mod item;
mod law;
mod limits;
mod link;
mod name;
mod part;
mod plan;
mod port;
mod raw;
mod rules;

pub use channel::{Chan, ChanKind, End};
pub use conf::{Conf, Seen};
pub use first::{first_along, first_of_each};
pub use health::{Action, EVENTS, Event, allowed, has_plan};
pub use item::{Broken, Item};
pub use law::broken_unless_fits;
pub use limits::{DESTS, LINK_NUMBERS, LINKS, PARTS, PARTS_1};
pub use link::Link;
pub use name::Name;
pub use part::{Area, HmTable, Need, Part};
pub use plan::{Plan, Slot};
pub use port::{Kind, Port, Way};
pub use raw::{RawConf, Region};
pub use rules::repeated;
