//! What is read goes in.

ghost use Rattle.host_calls.specs.Feeding.{HasFed, HasFaultAt};

use crate::code::Why;
use crate::outlet::Outlet;

impl Outlet {
    /// Feeds bytes of the input.
    pub fn feed(&mut self, bytes: &[u8]) -> Result<(), Why>
        ensures { HasFed self.old self.new bytes.now result }
    {
        self.connection.feed(bytes)?;
        Ok(())
    }

    /// Whether the input is at fault. Then it writes where its frame or line begins.
    pub fn fault_at(&self, place: &mut u64) -> bool
        ensures { HasFaultAt self.now place.old place.new result }
    {
        match self.connection.fault_place() {
            Some(at) => {
                *place = at;
                true
            }
            None => false,
        }
    }
}
