ghost use Rattle.hm_outside.specs.Calls.{CallsAddUp};

/// What calls take from a source, or put to a sink, adds up to what one call takes or puts.
pub fn calls_add_up()
    ensures { CallsAddUp }
{}
