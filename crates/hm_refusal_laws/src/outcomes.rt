ghost use Rattle.std.specs.Prelude.{◌≡◌, [], ◌∷◌, ◌++◌, List};
ghost use Rattle.hm_rules.specs.Events.{Setup, Event};
ghost use Rattle.hm_rules.specs.World.{opens};
ghost use Rattle.hm_rules.specs.Runs.{Slotted, slotted, outcomes, full_events};
ghost use Rattle.hm_refusal_laws.specs.Outcomes.{slot_outcomes};
ghost use Rattle.hm_refusal_laws.specs.Slotting.{slot_happens, slot_run};

/// In a run that refuses at its full events the events end as in the run in which each switch refuses a write just where its slots
/// are full; and what one event more adds.
pub fn outcomes_are_the_slotted_runs()
    ensures same { (setup : Setup) (es : List Event) → outcomes (opens setup) es (full_events setup es) ≡ slot_outcomes (slotted (opens setup)) es }
    ensures more { (s : Slotted) (es : List Event) (e : Event) → slot_outcomes s (es ++ e ∷ []) ≡ slot_outcomes s es ++ (slot_happens (slot_run s es) e).outcome ∷ [] }
{}
