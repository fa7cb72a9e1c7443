//! A plan that is being made, from one change to the next.

ghost use Rattle.std.specs.Prelude.{◌≡◌, ◌+◌, ◌^◌, ◌<◌, ◌≤◌, IfOk, IfSome, OnOk, map};
ghost use Rattle.plan_maker.specs.lemmas.Turns.{HasMomentRoom, HaveWindowRoom, IsGoing, first_moment, come, first_job, given, window_passed, moment_after_run, ticks_running, next_moment};

use crate::course::Course;
use crate::jobs::{Due, Job, Requirement, first_due, next_end, renew, spend};
use std::alloc::Global;
use std::marker::Model;
use xm_base::Memory;

/// How far a plan has been made: the next tick, the jobs in it, the slots before it, and the tick at which the next window
/// ends, or the frame.
#[derive(Debug, Drop)]
pub struct Moment {
    tick: u32,
    jobs: Vec<Job>,
    course: Course,
    end: u32,
}

impl Model for Moment {
    ghost use Rattle.plan_maker.specs.lemmas.Turns as plain;

    ghost Value = { plain.Moment };

    ghost view = { λ moment. record { tick = moment.tick; jobs = moment.jobs.items; course = moment.course; end = moment.end } };
}

impl Moment {
    /// The first tick, with the first window of each requirement.
    pub(crate) fn first(
        alloc: Global,
        frame: u32,
        requirements: &[Requirement],
    ) -> Result<Moment, Memory>
        ensures { IfOk result (λ moment. moment ≡ first_moment frame requirements.now) }
    {
        let jobs = first_jobs(alloc, requirements)?;
        let end = next_end(frame, &jobs);
        Ok(Moment {
            tick: 0,
            jobs,
            course: Course::new(alloc),
            end,
        })
    }

    /// The next tick.
    pub(crate) fn tick(&self) -> u32
        ensures { result ≡ self.now.tick }
    {
        self.tick
    }

    /// The slots before it.
    pub(crate) fn course(self) -> Course
        ensures { result ≡ self.course }
    {
        let Moment {
            tick: _,
            jobs: _,
            course,
            end: _,
        } = self;
        course
    }

    /// Goes on to the next change: a job has had its ticks, or a window or the frame ends.
    #[tactic(auto, unfolding(crate::specs::lemmas::Turns::next_moment))]
    pub(crate) fn turn(&mut self, frame: u32) -> Result<(), Memory>
        requires { IsGoing self.old }
        ensures { OnOk result (self.new ≡ next_moment frame self.old) }
    {
        match first_due(&self.jobs) {
            None => {
                self.pass(frame);
                Ok(())
            }
            Some(due) => self.run(frame, due),
        }
    }

    /// Nothing runs until the next window or the frame ends, and the windows that end then begin again.
    fn pass(&mut self, frame: u32)
        requires { HaveWindowRoom self.old.jobs }
        ensures { self.new ≡ window_passed frame self.old }
    {
        self.tick = self.end;
        renew(&mut self.jobs, self.tick);
        self.end = next_end(frame, &self.jobs);
    }

    /// A job runs until it has had its ticks, or until a window or the frame ends.
    #[tactic(auto, using(crate::proofs::SpentLemmas::spent_room, crate::proofs::TurnLemmas::last_room))]
    fn run(&mut self, frame: u32, due: Due) -> Result<(), Memory>
        requires room { HasMomentRoom self.old }
        requires before { self.old.tick ≤ self.old.end }
        ensures { OnOk result (self.new ≡ moment_after_run frame due.part (ticks_running self.old.end self.old.tick due) self.old) }
    {
        let ticks = due.left.min(self.end - self.tick);
        self.give(due.part, ticks)?;
        self.come(frame, self.tick + ticks);
        Ok(())
    }

    /// Goes on to a tick up to the one at which the next window or the frame ends.
    fn come(&mut self, frame: u32, tick: u32)
        requires { HaveWindowRoom self.old.jobs }
        ensures { self.new ≡ come frame tick self.old }
    {
        if tick == self.end {
            self.pass(frame);
        } else {
            self.tick = tick;
        }
    }

    /// A partition has the next ticks.
    fn give(&mut self, part: u8, ticks: u32) -> Result<(), Memory>
        requires { IfSome self.old.course.last (λ slot. slot.start + slot.duration + ticks < 2 ^ 32) }
        ensures { OnOk result (self.new ≡ given part ticks self.old) }
    {
        self.course.run(part, self.tick, ticks)?;
        spend(&mut self.jobs, part, ticks);
        Ok(())
    }
}

/// The jobs of the first windows.
fn first_jobs(alloc: Global, requirements: &[Requirement]) -> Result<Vec<Job>, Memory>
    ensures { IfOk result (λ jobs. jobs.items ≡ map first_job requirements.now) }
{
    Ok(
        requirements
            .iter()
            .map(|requirement| first_job(*requirement))
            .collect(alloc)?,
    )
}

/// The job of a requirement's first window.
fn first_job(requirement: Requirement) -> Job
    ensures { result ≡ first_job requirement }
{
    Job {
        requirement,
        left: requirement.duration,
        end: requirement.period,
    }
}
