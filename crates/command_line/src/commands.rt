//! What the program is asked to do.

use crate::part_files::PartFiles;
use crate::replay_options::ReplayOptions;
use crate::run_options::RunOptions;
use xm_base::PartId;

/// How long a run is.
#[derive(Clone, Copy, Debug, PartialEq, Eq)]
pub enum Span {
    /// This many major frames of the first plan.
    Frames(u64),
    /// This many ticks.
    Ticks(u64),
}

/// A command, with what its words name.
#[derive(Clone, Copy, Debug, PartialEq, Eq)]
pub enum Command<'a> {
    /// Run the raw image in this file for this many ticks.
    Bare {
        image: &'a str,
        ticks: u64,
    },
    /// Make the binary configuration of the system description in this file.
    Parse {
        description: &'a str,
        output: &'a str,
    },
    /// Make the binary configuration in this file again, in the version that is written now.
    Upgrade {
        configuration: &'a str,
        output: &'a str,
    },
    /// Make the image of the program in this file.
    BuildImage {
        program: &'a str,
        output: &'a str,
    },
    /// Print the image in this file.
    ReadImage {
        image: &'a str,
    },
    /// Pack the binary configuration in this file and the images of its partitions into a container.
    Pack {
        configuration: &'a str,
        output: &'a str,
        images: PartFiles<'a>,
    },
    /// Print the container in this file.
    ListContainer {
        container: &'a str,
    },
    /// Print whether this file is a container.
    CheckContainer {
        container: &'a str,
    },
    /// Make a cyclic plan that meets the requirements of the system description in this file.
    MakePlan {
        description: &'a str,
    },
    /// Print whether the plan of the system description in this file meets its requirements.
    CheckPlan {
        description: &'a str,
    },
    /// Print the group of each partition of the system description in this file.
    ListGroups {
        description: &'a str,
    },
    /// Print, after these groups, by what each partition may steer others.
    ListSteerers {
        description: &'a str,
    },
    /// Generate a system out of this number, and run it.
    Generate {
        number: u32,
    },
    /// Run the container in this file with these options.
    Run {
        container: &'a str,
        options: RunOptions<'a>,
    },
    /// Replay this partition of the container in this file alone, by the script in that file, with these options.
    Replay {
        container: &'a str,
        part: PartId,
        script: &'a str,
        options: ReplayOptions<'a>,
    },
}
