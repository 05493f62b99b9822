// Searches of the table of a gateway in the host's memory (A10). They are exported so that what a search costs can be measured alone. They change
// nothing, but take `&mut`, as they always did: the C interface.
ghost use Rattle.std.specs.Prelude.{◌≡◌};
ghost use Rattle.gateway.specs.declared.table.Engine.{Engine};
ghost use Rattle.gateway.specs.Engines.{place_by, has_number};

use gateway::Gateway;
use gateway::table::{Engine, find};

// The plain engine: the first place that has the number, or the table's length.
#[unsafe(no_mangle)]
pub extern "C" fn sealwax_plain_find(gateway: &mut Gateway, ticket: u64) -> usize
    ensures { (result ≡ place_by Engine.Plain ticket (has_number ticket) gateway.old.table)
        × (gateway.new ≡ gateway.old) }
{
    find(&gateway.table, Engine::Plain, ticket, ticket)
}

// The fast engine: the place that is home to `near`, if it has the number, else as the plain engine.
#[unsafe(no_mangle)]
pub extern "C" fn sealwax_find(gateway: &mut Gateway, ticket: u64, near: u64) -> usize
    ensures { (result ≡ place_by Engine.Fast near (has_number ticket) gateway.old.table)
        × (gateway.new ≡ gateway.old) }
{
    find(&gateway.table, Engine::Fast, ticket, near)
}
