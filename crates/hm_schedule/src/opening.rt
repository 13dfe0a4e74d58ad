ghost use Rattle.std.specs.Prelude.{◌≡◌, ◌<◌, ◌∷◌, ◌++◌, List, [], None};
ghost use Rattle.hm_schedule.specs.Orders.{event_in, IsNext, stage_of};
ghost use Rattle.hm_schedule.specs.declared.line.Line.{Line};
ghost use Rattle.hm_schedule.specs.Openings.{Says, max_opening};

use crate::event::Setup;
use crate::line::Line;
use crate::stage::{Stage, default_setup, place_of, set_by};
use hm_base::node::GroupKind;

/// What the opening lines of a schedule say: its setup, how far it has come, and how many lines they are.
#[derive(Clone, Copy, Debug, PartialEq, Eq)]
pub struct Opening {
    pub setup: Setup,
    pub stage: Stage,
    pub lines: u32,
}

impl Opening {
    /// What no line says.
    pub fn fresh() -> Opening
        ensures { Says result [] }
    {
        Opening {
            setup: default_setup(GroupKind::Chain, 1),
            stage: Stage::Fresh,
            lines: 0,
        }
    }

    /// What one opening line more says.
    pub fn with(self, line: &Line) -> Opening
        requires { self.lines < max_opening }
        ensures { (lines : List Line) → Says self lines → IsNext (stage_of lines) line.now → event_in line.now ≡ None
            → Says result (lines ++ line.now ∷ []) }
    {
        Opening {
            setup: set_by(self.setup, line),
            stage: Stage::Setting(place_of(line)),
            lines: self.lines + 1,
        }
    }
}
