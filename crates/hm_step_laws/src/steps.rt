ghost use Rattle.hm_base.specs.declared.node.GroupKind.{GroupKind};
ghost use Rattle.hm_packet.specs.Messages.{Message};
ghost use Rattle.hm_rules.specs.Replica.{Replica};
ghost use Rattle.hm_rules.specs.Viewstamped.{vr_timeout};
ghost use Rattle.hm_rules.specs.Deliveries.{replica_step, replica_tick};
ghost use Rattle.hm_step_laws.specs.Keeps.{Keeps};

/// A replica keeps its number and its room, never takes writes of a switch that it has refused, sends under its own name only what a
/// replica may send, and stays as it is where a step isn't done: whatever packet arrives, whenever it ticks, and when it times out.
pub fn every_step_keeps()
    ensures step { (kind : GroupKind) (r : Replica) (m : Message) → Keeps r (replica_step kind r m) }
    ensures tick { (kind : GroupKind) (r : Replica) → Keeps r (replica_tick kind r) }
    ensures timeout { (r : Replica) → Keeps r (vr_timeout r) }
{}
