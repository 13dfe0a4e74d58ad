ghost use Rattle.hm_frame.specs.LinkCalls.{LinkCallsAddUp};

/// What calls take from a link, or send, adds up to what one call takes or sends.
pub fn link_calls_add_up()
    ensures { LinkCallsAddUp }
{}
