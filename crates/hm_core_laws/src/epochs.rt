ghost use Rattle.hm_core_laws.specs.Laws.{ReplicasOpen, EpochsHoldAtFirst, QuietEventKeepsEpochs, StepKeepsEpochs, RemovalBeginsEpoch};

/// Each replica begins with its place as its number, among all replicas of the setup.
pub fn replicas_open()
    ensures { ReplicasOpen }
{}

/// Before the first event there is one epoch, whose members are all replicas.
pub fn epochs_hold_at_first()
    ensures { EpochsHoldAtFirst }
{}

/// The facts on epochs hold after every event; the removal of a stopped member begins the next epoch.
pub fn epochs_go_on()
    ensures quiet { QuietEventKeepsEpochs }
    ensures step { StepKeepsEpochs }
    ensures removal { RemovalBeginsEpoch }
{}
