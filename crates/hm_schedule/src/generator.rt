ghost use Rattle.std.specs.Prelude.{◌≡◌, ◌+◌, ◌^◌, ◌<◌, ℕ, List, length, drop, map, slice_get, IfSome};
ghost use Rattle.std.specs.Int.{w16, to_be_bytes};
ghost use Rattle.hm_base.specs.declared.node.GroupKind.{GroupKind};
ghost use Rattle.hm_schedule.specs.declared.event.Event.{Event};
ghost use Rattle.hm_schedule.specs.declared.line.Line.TheVariants as line;
ghost use Rattle.hm_schedule.specs.Generators.{IsGroupThenEvents};
ghost use Rattle.hm_schedule.specs.Generated.{next_state, draw_of, choice_at, timeout_made, event_made, event_from, generated};
ghost use Rattle.hm_schedule.specs.Limits.{max_events};
ghost use Rattle.hm_schedule.specs.Orders.{IsSchedule};
ghost use Rattle.hm_schedule.specs.Schedules.{IsLawful, IsLawfulGroup};

use crate::event::Event;
use crate::limits::MAX_EVENTS;
use crate::line::Line;
use hm_base::node::GroupKind;
use hm_base::value::Value;
use std::marker::Model;

/// A state is the one before it times this, and then the increment, in 64 bits: the generator of Knuth's MMIX.
const MULTIPLIER: u64 = 6_364_136_223_846_793_005;

/// What is added.
const INCREMENT: u64 = 1_442_695_040_888_963_407;

/// Draws fall into so many equal parts for the choice of an event.
const PARTS: u32 = 64;

/// How many clients there are.
const CLIENTS: u32 = 8;

/// How many objects they read and write.
const OBJECTS: u32 = 32;

/// One in so many choices of a timeout is one.
const TIMEOUT_ODDS: u32 = 16;

/// The switch that all requests go to.
const FIRST_SWITCH: u32 = 1;

/// Which kind of event is made.
#[derive(Clone, Copy)]
enum Choice {
    Write,
    Read,
    Resend,
    Tick,
    Drop,
    Deliver,
    Timeout,
    Next,
}

/// Makes a schedule of a number: a group's line and [`MAX_EVENTS`] events, the same at each run. Contracts see the lines that it
/// hasn't given yet.
#[derive(Debug, Drop)]
pub struct Generator {
    kind: GroupKind,
    size: u8,
    state: u64,
    given: u32,
}

impl Model for Generator {
    ghost use Rattle.std.specs.Prelude.{List};
    ghost use Rattle.hm_schedule.specs.declared.line.Line.{Line};

    ghost Value = { List Line };

    ghost use Rattle.hm_schedule.specs.Generators.{lines_left, IsSound};

    ghost view = { lines_left };

    ghost invariant = { IsSound };
}

impl Generator {
    /// The generator of a number's schedule for a group.
    pub fn open(number: u64, kind: GroupKind, size: u8) -> Generator
        requires { IsLawfulGroup kind size }
        ensures { result ≡ generated number kind size }
    {
        Generator {
            kind,
            size,
            state: number,
            given: 0,
        }
    }

    /// The next line. None exactly where the last event was given.
    pub fn next_line(&mut self) -> Option<Line>
        ensures line { result ≡ slice_get self.old 0 }
        ensures rest { self.new ≡ drop 1 self.old }
        ensures lawful { IfSome result IsLawful }
    {
        let number = self.given;
        if number > MAX_EVENTS {
            return None;
        }
        self.given += 1;
        if number == 0 {
            return Some(Line::Group {
                kind: self.kind,
                size: self.size,
            });
        }
        let event = next_event(self.kind, self.size, number, &mut self.state);
        Some(Line::Event(event))
    }

    /// The next event, where the group's line was given. None exactly where the last event was given.
    #[inline(always)]
    pub fn next_event(&mut self) -> Option<Event>
        requires { (events : List Event) × (self.old ≡ map line.Event events) }
        ensures event { (events : List Event) → self.old ≡ map line.Event events → result ≡ slice_get events 0 }
        ensures rest { (events : List Event) → self.old ≡ map line.Event events → self.new ≡ map line.Event (drop 1 events) }
    {
        let number = self.given;
        if number > MAX_EVENTS {
            return None;
        }
        self.given += 1;
        let event = next_event(self.kind, self.size, number, &mut self.state);
        Some(event)
    }
}

/// What is made of a number is a schedule, of a group's line and [`MAX_EVENTS`] events.
pub fn generated_is_a_schedule()
    ensures events { (number : ℕ) → (kind : GroupKind) → (size : ℕ) → IsGroupThenEvents kind size (generated number kind size) }
    ensures schedule { (number : ℕ) → (kind : GroupKind) → (size : ℕ) → IsLawfulGroup kind size → IsSchedule (generated number kind size) }
    ensures count { (number : ℕ) → (kind : GroupKind) → (size : ℕ) → length (generated number kind size) ≡ max_events + 1 }
{}

/// The event of this number, made by two draws.
#[inline(always)]
fn next_event(kind: GroupKind, size: u8, number: u32, state: &mut u64) -> Event
    requires size { 0 < size }
    requires number { 0 < number }
    requires fits { number < 2 ^ 16 }
    ensures event { result ≡ event_from kind size number state.old }
    ensures state { state.new ≡ next_state (next_state state.old) }
{
    let choice = choice_of(draw(state) % PARTS);
    let amount = draw(state);
    make(choice, kind, size, number, amount)
}

/// The next draw, of 31 bits.
fn draw(state: &mut u64) -> u32
    ensures state { state.new ≡ next_state state.old }
    ensures draw { result ≡ draw_of state.new }
{
    *state = state.wrapping_mul(MULTIPLIER).wrapping_add(INCREMENT);
    (*state >> 33) as u32
}

/// Which kind of event a part of a draw stands for.
fn choice_of(part: u32) -> Choice
    ensures { result ≡ choice_at part }
{
    match part {
        0..=2 => Choice::Write,
        3..=5 => Choice::Read,
        6 => Choice::Resend,
        7 => Choice::Tick,
        8 => Choice::Drop,
        9 => Choice::Deliver,
        10 => Choice::Timeout,
        _ => Choice::Next,
    }
}

/// The event of that kind and number. Each write writes its number.
fn make(choice: Choice, kind: GroupKind, size: u8, number: u32, amount: u32) -> Event
    requires size { 0 < size }
    requires number { 0 < number }
    requires fits { number < 2 ^ 16 }
    ensures { result ≡ event_made choice kind size number amount }
{
    let client = amount % CLIENTS;
    let object = amount / CLIENTS % OBJECTS;
    match choice {
        Choice::Write => Event::Write {
            client,
            object,
            value: two_bytes(number),
            switch: FIRST_SWITCH,
        },
        Choice::Read => Event::Read {
            client,
            object,
            switch: FIRST_SWITCH,
        },
        Choice::Resend => Event::Resend {
            client,
            switch: FIRST_SWITCH,
        },
        Choice::Tick => Event::Tick {
            replica: (amount % u32::from(size)) as u8,
        },
        Choice::Drop => Event::Drop,
        Choice::Deliver => Event::Deliver {
            packet: amount % number + 1,
        },
        Choice::Timeout => timeout(kind, size, amount),
        Choice::Next => Event::Next,
    }
}

/// The number's two bytes, the higher one first.
fn two_bytes(number: u32) -> Value
    requires { number < 2 ^ 16 }
    ensures { result ≡ to_be_bytes w16 number }
{
    Value::from_slice(&(number as u16).to_be_bytes()).unwrap()
}

/// A timeout, which is seldom, and in Viewstamped Replication alone.
fn timeout(kind: GroupKind, size: u8, amount: u32) -> Event
    requires { 0 < size }
    ensures { result ≡ timeout_made kind size amount }
{
    match kind {
        GroupKind::Vr if amount % TIMEOUT_ODDS == 0 => Event::Timeout {
            replica: (amount / TIMEOUT_ODDS % u32::from(size)) as u8,
        },
        _ => Event::Next,
    }
}
