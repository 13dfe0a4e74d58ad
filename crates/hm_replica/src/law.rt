ghost use Rattle.std.specs.Prelude.{◌≡◌, ℕ, Bool, Some, None};
ghost use Rattle.hm_base.specs.declared.why.Why.{Why};
ghost use Rattle.hm_codec.specs.declared.acted.Acted.{Acted};
ghost use Rattle.hm_packet.specs.declared.body.Body.{Body};
ghost use Rattle.hm_packet.specs.Messages.{Message};
ghost use Rattle.hm_rules.specs.Senders.{number};
ghost use Rattle.hm_rules.specs.Replica.{Replica};
ghost use Rattle.hm_rules.specs.ReplicaSteps.{Stepped, ignored, receives};
ghost use Rattle.hm_replica.specs.Given.{Gives};
ghost use Rattle.hm_replica.specs.Refusals.{refusal};
ghost use Rattle.hm_replica.specs.Steps.{step_of};

/// A packet that is refused is ignored for that reason; any other goes to the protocol's row for its kind.
pub fn refused_packets_are_ignored()
    ensures refused { (takes : Body → Bool) → (row : Replica → ℕ → Body → Stepped) → (r : Replica) → (m : Message) → (reason : Why)
        → refusal r.me (takes m.body) m ≡ Some reason
        → receives takes row r m ≡ ignored r reason }
    ensures taken { (takes : Body → Bool) → (row : Replica → ℕ → Body → Stepped) → (r : Replica) → (m : Message)
        → refusal r.me (takes m.body) m ≡ None
        → receives takes row r m ≡ row r (number m.src) m.body }
{}

/// A step that is one of the rules gives each of its parts.
pub fn steps_give_their_parts()
    ensures { (new : Replica) → (acted : Acted) → (s : Stepped) → step_of new acted ≡ s → Gives new acted s }
{}
