ghost use Rattle.std.specs.Prelude.{◌≡◌, ◌↔◌, IsTrue};
ghost use Rattle.hm_schedule.specs.Orders as orders;
ghost use Rattle.hm_schedule.specs.Setups.{setup_of};
ghost use Rattle.hm_schedule.specs.Refusals.{IsFull};
ghost use Rattle.hm_schedule.specs.Stages.{StandsAt, stage_at};

use crate::event::Setup;
use crate::keyword::Keyword;
use crate::limits::MAX_EVENTS;
use crate::line::Line;
use hm_base::node::GroupKind;

/// How far a schedule has come.
#[derive(Clone, Copy, Debug, PartialEq, Eq)]
pub enum Stage {
    /// No line.
    Fresh,
    /// The place of its last setup line.
    Setting(u8),
    /// How many events.
    Running(u32),
}

impl Stage {
    /// Whether a line may come next.
    pub fn allows(self, line: &Line) -> bool
        ensures { IsTrue result ↔ orders.MayCome (stage_at self) line.now }
    {
        match self {
            Stage::Fresh => matches!(line, Line::Group { .. }),
            Stage::Setting(place) => place < place_of(line),
            Stage::Running(events) => matches!(line, Line::Event(_)) && events < MAX_EVENTS,
        }
    }
}

impl Stage {
    /// Whether lines with this keyword may stand next.
    pub(crate) fn admits(self, keyword: Keyword) -> bool
        ensures { IsTrue result ↔ StandsAt (stage_at self) keyword }
    {
        match self {
            Stage::Fresh => keyword.place() == 0,
            Stage::Setting(place) => place < keyword.place(),
            Stage::Running(_) => keyword.place() == 4,
        }
    }

    /// Whether a schedule has as many events as it may have.
    pub(crate) fn is_full(self) -> bool
        ensures { IsTrue result ↔ IsFull (stage_at self) }
    {
        match self {
            Stage::Fresh | Stage::Setting(_) => false,
            Stage::Running(events) => events >= MAX_EVENTS,
        }
    }
}

/// The place of a line among the opening lines, or that behind them all.
pub fn place_of(line: &Line) -> u8
    ensures { result ≡ orders.place_of line.now }
{
    match line {
        Line::Group { .. } => 0,
        Line::Table { .. } => 1,
        Line::Life(_) => 2,
        Line::Log(_) => 3,
        Line::Event(_) => 4,
    }
}

/// The setup of a group of which no line says more.
pub fn default_setup(kind: GroupKind, size: u8) -> Setup
    ensures { setup_of result ≡ orders.default_setup kind size }
{
    Setup {
        kind,
        size,
        stages: 3,
        bits: 10,
        life: 4_194_304,
        cap: 16_384,
    }
}

/// A setup, and what a line says of it.
pub fn set_by(setup: Setup, line: &Line) -> Setup
    ensures { setup_of result ≡ orders.set_by (setup_of setup) line.now }
{
    match line {
        Line::Group { kind, size } => default_setup(*kind, *size),
        Line::Table { stages, bits } => Setup {
            stages: *stages,
            bits: *bits,
            ..setup
        },
        Line::Life(life) => Setup {
            life: *life,
            ..setup
        },
        Line::Log(cap) => Setup { cap: *cap, ..setup },
        Line::Event(_) => setup,
    }
}
