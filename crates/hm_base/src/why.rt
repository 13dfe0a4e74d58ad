ghost use Rattle.std.specs.Prelude.{◌≡◌};
ghost use Rattle.hm_base.specs.Spellings.{why_text};

/// Why a node takes no notice of a packet.
#[derive(Clone, Copy, Debug, PartialEq, Eq)]
pub enum Why {
    /// It takes no packets of this kind.
    Kind,
    /// Another node is addressed.
    NotForMe,
    /// The view or epoch isn't the present one, or for a configuration or a route not a later one.
    Epoch,
    /// Stamps of this switch are taken no more, or not yet.
    OldSwitch,
    /// A write with this number or a later one was taken before.
    Order,
    /// It has nothing new: this, or something that goes as far, is known already.
    Repeat,
    /// What it goes on from, or speaks of, is missing.
    Gap,
    /// The node's status or role doesn't allow it.
    Status,
    /// The sender may not send it, or what it says can't be.
    Foreign,
    /// A new primary isn't sure yet that the log with which its epoch began is held.
    Unsettled,
    /// The node is stopped, or wasn't started.
    Gone,
}

impl Why {
    /// The reason's name, as texts have it.
    pub fn name(self) -> &'static str
        ensures { result.now ≡ why_text self }
    {
        match self {
            Why::Kind => "Kind",
            Why::NotForMe => "NotForMe",
            Why::Epoch => "Epoch",
            Why::OldSwitch => "OldSwitch",
            Why::Order => "Order",
            Why::Repeat => "Repeat",
            Why::Gap => "Gap",
            Why::Status => "Status",
            Why::Foreign => "Foreign",
            Why::Unsettled => "Unsettled",
            Why::Gone => "Gone",
        }
    }
}
