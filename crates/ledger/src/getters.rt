// What a ledger says of its house.
ghost use Rattle.std.specs.Prelude.{◌≡◌, ◌≤◌};
ghost use Rattle.names.specs.Index.{in_index};

use crate::Ledger;
use entries::named::NamedOrder;
use protocol::Name;

impl Ledger {
    pub fn house(&self) -> u8
        ensures { result ≡ self.now.house }
    {
        self.house
    }

    // How often the house began.
    pub fn start(&self) -> u32
        ensures value { result ≡ self.now.start }
        ensures limit { result ≤ 65535 }
    {
        self.start
    }

    // How long the file is, up to its last whole record.
    pub fn bytes(&self) -> usize
        ensures value { result ≡ self.now.bytes }
        ensures limit { result ≤ 4194304 }
    {
        self.bytes
    }

    // The orders held back, in the order of holding.
    pub fn held(&self) -> &[NamedOrder]
        ensures { result.now ≡ self.now.held.items }
    {
        self.held.as_slice()
    }

    // Whether the house ruled the order of that name.
    pub fn has_ruled(&self, name: Name) -> bool
        ensures { result ≡ in_index self.now.ruled name }
    {
        self.ruled.contains(name)
    }
}
