ghost use Rattle.std.specs.Prelude.{◌≡◌, ◌++◌, ℕ, List, length};
ghost use Rattle.hm_schedule.specs.Fronts.{GrowsByLines};
ghost use Rattle.hm_schedule.specs.Orders.{Stage, IsBegun, IsSchedule, IsOutside, lines_text, setup_in, stage_of};
ghost use Rattle.hm_schedule.specs.Refusals.{BreaksOff, IsRefused};
ghost use Rattle.hm_schedule.specs.Schedules.{IsLawfulGroup};
ghost use Rattle.hm_schedule.specs.declared.line.Line.{Line};
ghost use Rattle.hm_schedule.specs.declared.refusal.Refusal.{Refusal};

/// What one line more adds to a schedule's front, and that the front's setup has a lawful group.
pub fn schedules_grow_by_lines()
    ensures grow { GrowsByLines }
    ensures group { (lines : List Line) → IsBegun lines → IsLawfulGroup (setup_in lines).kind (setup_in lines).size }
{}

/// Bytes that are refused are outside the grammar. Bytes break off behind one number of lines and for one reason, and a schedule's
/// bytes are nowhere outside the grammar.
pub fn bytes_break_off_once()
    ensures outside { (stage : Stage) → (bytes : List ℕ) → (why : Refusal) → IsRefused stage bytes why → IsOutside stage bytes }
    ensures once { (begun others : List Line) → (why other : Refusal) → (bytes : List ℕ)
        → IsBegun begun
        → IsBegun others
        → BreaksOff begun why bytes
        → BreaksOff others other bytes
        → (length begun ≡ length others) × (why ≡ other) }
    // Where bytes are outside the grammar behind lines, it's there that they break off, if they do.
    ensures there { (begun others : List Line) → (why : Refusal) → (rest : List ℕ)
        → IsBegun begun
        → IsBegun others
        → BreaksOff begun why (lines_text others ++ rest)
        → IsOutside (stage_of others) rest
        → (length begun ≡ length others) × IsRefused (stage_of others) rest why }
    ensures nowhere { (begun lines : List Line) → (rest : List ℕ) → IsBegun begun → IsSchedule lines → lines_text lines ≡ lines_text begun ++ rest → IsOutside (stage_of begun) rest → ⊥ }
{}
