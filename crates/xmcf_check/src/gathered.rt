//! What a draft describes, as the rules are tried on it.

use std::marker::Model;
use xm_conf::{Action, Event, RawConf};

/// What a draft describes: its configuration, with numbers that no field holds capped, its ids, and its answers to health events.
#[derive(Debug, Drop)]
pub(crate) struct Gathered {
    pub(crate) raw: RawConf,
    pub(crate) ids: Ids,
    /// The answers of each partition, in the order of the events' numbers, then of the text.
    pub(crate) answers: Vec<Vec<Answer>>,
}

impl Model for Gathered {
    ghost use Rattle.std.specs.Prelude.{map};
    ghost use Rattle.xmcf_check.specs.lemmas.Gathered as plain;

    ghost Value = { plain.Gathered };

    ghost view = { λ g. record { raw = g.raw; ids = g.ids; answers = map (λ list. list.items) g.answers.items } };
}

/// The ids of all that has one.
#[derive(Debug, Drop)]
pub(crate) struct Ids {
    pub(crate) processor: u32,
    pub(crate) uarts: Vec<u32>,
    pub(crate) plans: Vec<PlanIds>,
    pub(crate) parts: Vec<u32>,
}

impl Model for Ids {
    ghost use Rattle.xm_conf.specs.Description as plain;

    ghost Value = { plain.Ids };

    ghost view = { λ ids. record { processor = ids.processor; uarts = ids.uarts.items; plans = ids.plans.items; parts = ids.parts.items } };
}

/// The ids that a plan gives itself and its slots.
#[derive(Debug, Drop)]
pub(crate) struct PlanIds {
    pub(crate) plan: u32,
    pub(crate) slots: Vec<u32>,
}

impl Model for PlanIds {
    ghost use Rattle.xm_conf.specs.Description as plain;

    ghost Value = { plain.PlanIds };

    ghost view = { λ ids. record { plan = ids.plan; slots = ids.slots.items } };
}

/// An answer to a health event.
#[derive(Debug, Drop)]
pub(crate) struct Answer {
    pub(crate) event: Event,
    pub(crate) action: Action,
}

impl Model for Answer {
    ghost use Rattle.xm_conf.specs.Description as plain;

    ghost Value = { plain.HealthAnswer };

    ghost view = { λ answer. record { event = answer.event; action = answer.action } };
}
