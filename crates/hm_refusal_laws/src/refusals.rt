ghost use Rattle.std.specs.Prelude.{◌≡◌, ◌≢◌, ℕ, ◌+◌, ◌<◌, ◌^◌, List, [], ◌∷◌, ◌++◌, length, All};
ghost use Rattle.hm_rules.specs.Events.{Setup, Event};
ghost use Rattle.hm_rules.specs.World.{opens};
ghost use Rattle.hm_rules.specs.Runs.{Slotted, slotted, run, full_events};
ghost use Rattle.hm_rules.specs.RunText.{event_text, events_text, run_text, bad_text, too_long_text, refused_events};
ghost use Rattle.hm_refusal_laws.specs.Slotting.{slot_happens, slot_step, slot_run, slot_text};

/// A run that refuses at its full events is the run in which each switch refuses a write just where its slots are full.
pub fn full_events_are_the_refusals()
    ensures world { (setup : Setup) (es : List Event) → run (opens setup) es (full_events setup es) ≡ (slot_run (slotted (opens setup)) es).world }
    ensures text { (setup : Setup) (es : List Event) → events_text 1 (opens setup) es (full_events setup es) ≡ slot_text 1 (slotted (opens setup)) es }
{}

/// One event more.
pub fn slotted_run_goes_on()
    ensures world { (s : Slotted) (es : List Event) (e : Event) → slot_run s (es ++ e ∷ []) ≡ slot_step (slot_run s es) e }
    ensures text { (k : ℕ) (s : Slotted) (es : List Event) (e : Event)
        → slot_text k s (es ++ e ∷ []) ≡ slot_text k s es ++ event_text (length es + k) (slot_run s es).world (slot_happens (slot_run s es) e) }
{}

/// The text of a run shows at which events a write was refused, whatever ends the text.
pub fn texts_show_their_refusals()
    ensures whole { (setup : Setup) (es : List Event) → length es < 2 ^ 32 → refused_events (run_text setup es (full_events setup es)) ≡ full_events setup es }
    ensures cut { (setup : Setup) (es : List Event) → length es < 2 ^ 32 → refused_events (events_text 1 (opens setup) es (full_events setup es)) ≡ full_events setup es }
    ensures bad { (setup : Setup) (es : List Event) (line : ℕ) (reason : List ℕ)
        → length es < 2 ^ 32
        → All (λ byte. byte ≢ 10) reason
        → refused_events (events_text 1 (opens setup) es (full_events setup es) ++ bad_text line reason) ≡ full_events setup es }
    ensures too_long { (setup : Setup) (es : List Event) (line : ℕ)
        → length es < 2 ^ 32
        → refused_events (events_text 1 (opens setup) es (full_events setup es) ++ too_long_text line) ≡ full_events setup es }
{}
