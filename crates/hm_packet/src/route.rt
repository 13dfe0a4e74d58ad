ghost use Rattle.std.specs.Prelude.{◌≡◌};

use hm_base::members::Members;
use std::marker::Model;

/// Where a switch sends: writes to the entry node, reads that it doesn't stamp to the normal node, stamped reads to the
/// members in turn. Each replica number in it is at most 6; contracts see the record of its fields.
#[derive(Drop)]
pub struct Route {
    pub view: u32,
    pub entry: u8,
    pub normal: u8,
    pub members: Members,
}

impl Model for Route {
    ghost use Rattle.hm_packet.specs.Routing.{Routing, IsLawfulRouting};

    ghost Value = { Routing };

    ghost view = { λ r. record { view = r.view; entry = r.entry; normal = r.normal; members = r.members } };

    ghost invariant = { λ r. IsLawfulRouting (record { view = r.view; entry = r.entry; normal = r.normal; members = r.members }) };
}

impl Route {
    /// An equal route.
    pub fn copy(&self) -> Route
        ensures { result ≡ self.now }
    {
        Route {
            view: self.view,
            entry: self.entry,
            normal: self.normal,
            members: self.members.copy(),
        }
    }
}
