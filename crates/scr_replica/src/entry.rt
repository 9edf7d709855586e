ghost use Rattle.std.specs.Prelude.{◌≡◌};
ghost use Rattle.std.specs.Option.{option_copied};
ghost use Rattle.scr_replica.specs.Entries.{row_in, is_delivered};

use scr_base::Row;

/// What a core knows of a packet by the frames that were delivered to it.
#[derive(Clone, Copy, Debug)]
pub(crate) enum Entry {
    /// The packet's own frame was delivered to it.
    Delivered(Row),
    /// Only frames behind that one carry the packet to it.
    Carried(Row),
    /// None of its frames carries the packet.
    Lost,
}

impl Entry {
    /// The row of the packet, where the core knows it.
    pub(crate) fn row(&self) -> Option<&Row>
        ensures { option_copied result ≡ row_in self.now }
    {
        match self {
            Entry::Delivered(row) | Entry::Carried(row) => Some(row),
            Entry::Lost => None,
        }
    }

    /// Whether the packet's own frame was delivered to the core.
    pub(crate) fn is_delivered(&self) -> bool
        ensures { result ≡ is_delivered self.now }
    {
        matches!(self, Entry::Delivered(_))
    }
}
