//! The answers of a partition to health events.

ghost use Rattle.std.specs.Prelude.{◌≡◌, ◌≤◌, ◌^◌, ◌++◌, IfOk, OnOk, flat_map};
ghost use Rattle.xm_conf.specs.Health.{event_row};
ghost use Rattle.xmcf_check.specs.Described.{given_action_for, answers_of, answers_to, flag_for, given_to, hm_of, is_to, log_given, logged_of};

use crate::elements::Given;
use crate::gathered::Answer;
use std::alloc::Global;
use xm_base::Memory;
use xm_conf::{Action, EVENTS, Event, HmTable};

/// Whether what is given answers the event.
fn is_to(event: Event, given: &Given) -> bool
    ensures { result ≡ is_to event given.now }
{
    given.event.number() == event.number()
}

/// The first answer to the event.
#[tactic(auto, unfolding(crate::specs::Described::given_to))]
fn given_to(given: &[Given], event: Event) -> Option<Given>
    ensures { result ≡ given_to given.now event }
{
    given.iter().copied().find(|given| is_to(event, given))
}

/// The action for an event.
#[tactic(auto, unfolding(crate::specs::Described::given_action_for))]
fn action_for(given: &[Given], event: Event) -> Action
    ensures { result ≡ given_action_for given.now event }
{
    match given_to(given, event) {
        Some(given) => given.action,
        None => event.default_action(),
    }
}

/// The bit of an event.
fn bit(event: Event) -> u16
    ensures { result ≡ 2 ^ (event_row event).number }
{
    1 << event.number()
}

/// Whether an event is logged.
fn is_logged(given: &[Given], event: Event) -> bool
    ensures { result ≡ log_given (given_to given.now event) }
{
    match given_to(given, event) {
        Some(given) => given.log,
        None => true,
    }
}

/// The bit of an event that is logged.
#[tactic(auto, unfolding(crate::specs::Described::flag_for))]
fn flag_for(given: &[Given], event: Event) -> u16
    ensures value { result ≡ flag_for given.now event }
    ensures bound { result ≤ 2 ^ (event_row event).number }
{
    if is_logged(given, event) {
        bit(event)
    } else {
        0
    }
}

/// The bits of the events that are logged.
#[tactic(auto, unfolding(crate::specs::Described::logged_of))]
fn logged(given: &[Given]) -> u16
    ensures { result ≡ logged_of given.now }
{
    flag_for(given, Event::PartitionError)
        + flag_for(given, Event::MemProtection)
        + flag_for(given, Event::UnexpectedTrap)
        + flag_for(given, Event::SparcIllegalInstruction)
        + flag_for(given, Event::SparcPrivilegedInstruction)
        + flag_for(given, Event::SparcFpDisabled)
        + flag_for(given, Event::SparcCpDisabled)
        + flag_for(given, Event::SparcAddressNotAligned)
        + flag_for(given, Event::SparcTagOverflow)
        + flag_for(given, Event::SparcDivideException)
        + flag_for(given, Event::SparcInstrAccess)
        + flag_for(given, Event::SparcDataAccess)
}

/// A partition's table of health events.
#[tactic(auto, unfolding(crate::specs::Described::hm_of))]
pub(super) fn table(given: &[Given]) -> HmTable
    ensures { result ≡ hm_of given.now }
{
    HmTable {
        actions: [
            action_for(given, Event::PartitionError),
            action_for(given, Event::MemProtection),
            action_for(given, Event::UnexpectedTrap),
            action_for(given, Event::SparcIllegalInstruction),
            action_for(given, Event::SparcPrivilegedInstruction),
            action_for(given, Event::SparcFpDisabled),
            action_for(given, Event::SparcCpDisabled),
            action_for(given, Event::SparcAddressNotAligned),
            action_for(given, Event::SparcTagOverflow),
            action_for(given, Event::SparcDivideException),
            action_for(given, Event::SparcInstrAccess),
            action_for(given, Event::SparcDataAccess),
        ],
        logged: logged(given),
    }
}

/// All answers to an event, after the others.
#[tactic(auto, unfolding(crate::specs::Described::answers_to))]
fn push_answers(answers: &mut Vec<Answer>, given: &[Given], event: Event) -> Result<(), Memory>
    ensures { OnOk result (answers.new.items ≡ answers.old.items ++ answers_to given.now event) }
{
    for one in given {
        if is_to(event, one) {
            answers.push(Answer {
                event: one.event,
                action: one.action,
            })?;
        }
    }
    Ok(())
}

/// All answers to these events, in the order of the events and then of the text.
fn answers_for(alloc: Global, given: &[Given], events: &[Event]) -> Result<Vec<Answer>, Memory>
    ensures { IfOk result (λ answers. answers.items ≡ flat_map (answers_to given.now) events.now) }
{
    let mut answers = Vec::new(alloc);
    for event in events {
        push_answers(&mut answers, given, *event)?;
    }
    Ok(answers)
}

/// All answers, in the order of the events' numbers and then of the text.
#[tactic(auto, unfolding(crate::specs::Described::answers_of))]
pub(super) fn answers(alloc: Global, given: &[Given]) -> Result<Vec<Answer>, Memory>
    ensures { IfOk result (λ answers. answers.items ≡ answers_of given.now) }
{
    answers_for(alloc, given, &EVENTS)
}
