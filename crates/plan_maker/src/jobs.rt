//! Requirements, and what is left of each in its current window.

ghost use Rattle.std.specs.Prelude.{◌≡◌, ◌+◌, ◌^◌, ◌<◌, All, map, fold, min};
ghost use Rattle.plan_maker.specs.lemmas.Turns.{job_due_first, next_end, renewed, sooner_due, spent_first, due_of};

/// What a partition requires: this many ticks in each period.
#[derive(Clone, Copy, Debug, PartialEq, Eq)]
pub struct Requirement {
    /// The partition's number.
    pub part: u8,
    /// The ticks that it needs in each period.
    pub duration: u32,
    /// The ticks of a period.
    pub period: u32,
}

/// What a requirement has to get in its current window.
#[derive(Clone, Copy, Debug, PartialEq, Eq)]
pub struct Job {
    /// The requirement.
    pub requirement: Requirement,
    /// The ticks that it has not had yet.
    pub left: u32,
    /// The tick with which its next window begins.
    pub end: u32,
}

/// What is due to a partition in its current window.
#[derive(Clone, Copy, Debug, PartialEq, Eq)]
pub struct Due {
    /// The partition's number.
    pub part: u8,
    /// The ticks that it has not had yet.
    pub left: u32,
    /// The tick with which its next window begins.
    pub end: u32,
}

/// What is due to the job that goes first, or `None` where no job has ticks to get.
#[tactic(auto, unfolding(crate::specs::lemmas::Turns::job_due_first))]
pub(crate) fn first_due(jobs: &[Job]) -> Option<Due>
    ensures { result ≡ job_due_first jobs.now }
{
    let mut best = None;
    for job in jobs {
        best = sooner(best, *job);
    }
    best
}

/// Of what goes first and the next job, what goes first.
fn sooner(best: Option<Due>, job: Job) -> Option<Due>
    ensures { result ≡ sooner_due best job }
{
    match best {
        None => {
            if job.left > 0 {
                Some(due_of(job))
            } else {
                None
            }
        }
        Some(best) => {
            if job.left > 0 && job.end < best.end {
                Some(due_of(job))
            } else {
                Some(best)
            }
        }
    }
}

/// What is due to a job's partition.
fn due_of(job: Job) -> Due
    ensures { result ≡ due_of job }
{
    Due {
        part: job.requirement.part,
        left: job.left,
        end: job.end,
    }
}

/// The tick at which the next window ends, or the frame.
pub(crate) fn next_end(frame: u32, jobs: &[Job]) -> u32
    ensures { result ≡ next_end frame jobs.now }
{
    jobs.iter().map(|job| job.end).fold(frame, u32::min)
}

/// The first job of a partition has this many ticks.
pub(crate) fn spend(jobs: &mut [Job], part: u8, ticks: u32)
    ensures { jobs.new ≡ spent_first part ticks jobs.old }
{
    for job in jobs.iter_mut() {
        if job.requirement.part == part {
            job.left = job.left.saturating_sub(ticks);
            return;
        }
    }
}

/// The windows that end at a tick begin again.
pub(crate) fn renew(jobs: &mut [Job], tick: u32)
    requires { All (λ job. job.end + job.requirement.period < 2 ^ 32) jobs.old }
    ensures { jobs.new ≡ map (renewed tick) jobs.old }
{
    for job in jobs.iter_mut() {
        *job = renewed(*job, tick);
    }
}

/// A job in the next window, where its window ends at the tick.
fn renewed(job: Job, tick: u32) -> Job
    requires { job.end + job.requirement.period < 2 ^ 32 }
    ensures { result ≡ renewed tick job }
{
    if job.end != tick {
        return job;
    }
    Job {
        requirement: job.requirement,
        left: job.requirement.duration,
        end: job.end + job.requirement.period,
    }
}
