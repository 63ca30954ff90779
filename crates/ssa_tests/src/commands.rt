//! Commands on the sample's object.

use ssa_answers::change::Command;
use ssa_json::moment::Moment;
use ssa_path::part::Part;
use ssa_samples::sample::{json, web};
use std::alloc::Global;
use std::test::Fail;

/// How a manager changes the object.
#[derive(Clone, Copy)]
pub enum Way {
    Apply,
    ForcedApply,
    Update,
}

/// The command of a manager at a second, with these members behind the object's metadata.
pub fn command(
    alloc: Global,
    second: &str,
    way: Way,
    who: &str,
    members: &str,
) -> Result<Command, Fail> {
    let moment = ["2024-05-01T10:00:0", second, "Z"].concat(alloc)?;
    let at = Moment::read(moment.as_str())?;
    let who = String::from_str(alloc, who)?;
    let object = json(alloc, web(alloc, "", members)?.as_str())?;
    Ok(match way {
        Way::Apply => Command::Apply {
            who,
            part: Part::Main,
            force: false,
            at,
            object,
        },
        Way::ForcedApply => Command::Apply {
            who,
            part: Part::Main,
            force: true,
            at,
            object,
        },
        Way::Update => Command::Update {
            who,
            part: Part::Main,
            at,
            object,
        },
    })
}

/// The Apply of one manager, at the moment of all such, with these members behind the object's metadata.
pub fn apply(alloc: Global, members: &str) -> Result<Command, Fail> {
    command(alloc, "1", Way::Apply, "kubectl", members)
}
