//! What a commit may not exceed.
ghost use Rattle.std.specs.Prelude.{◌≡◌, ◌+◌, ◌^◌, ◌<◌, ◌≤◌, length, slice_get, filter, nat_lt, OnOk, OnErr};
ghost use Rattle.std.specs.List.{range_with_len};
ghost use Rattle.lv_base.specs.Bases.{table_in};
ghost use Rattle.lv_stands.specs.Kept.{shown};
ghost use Rattle.lv_stands.specs.Moves.{rows_after};
ghost use Rattle.lv_made.specs.Limits.{is_full};

use lv_base::{Base, Ready};
use lv_schema::Net;
use lv_values::NoMemory;

/// How many rows a table may have.
const MOST_ROWS: u128 = 65535;

/// Whether a table would have more rows than a table may have.
fn would_be_full(base: &Base, table: u32, net: &Net) -> bool
    requires { table < length base.now.tables }
    ensures { result ≡ nat_lt 65535 (rows_after (length (shown base.now.number (table_in base.now.tables table).versions)) net.now) }
{
    let rows = u128::from(base.rows(table)) + net.plus.len() as u128;
    rows.saturating_sub(net.minus.len() as u128) > MOST_ROWS
}

/// The first table that would have more rows than a table may have. Cost: a look at each table.
pub fn first_full(base: &Base, tables: u32, nets: &[Net]) -> Option<u32>
    requires tables { tables ≡ length base.now.tables }
    requires nets { length nets.now ≡ length base.now.tables }
    ensures { result ≡ slice_get (filter (is_full base.now nets.now) (range_with_len 0 (length nets.now))) 0 }
{
    for table in 0..tables {
        if would_be_full(base, table, &nets[table as usize]) {
            return Some(table);
        }
    }
    None
}

/// Refuses a commit with whose entries 64 bits could not count them, for which there is no memory. Cost: constant.
pub fn check_entries(base: &Base, ready: &Ready) -> Result<(), NoMemory>
    ensures fits { OnOk result (length base.now.deltas.entries + length ready.now.actions < 2 ^ 64) }
    ensures refused { OnErr result (2 ^ 64 ≤ length base.now.deltas.entries + length ready.now.actions) }
{
    let entries = base.deltas().count();
    match entries.checked_add(ready.actions.len() as u64) {
        Some(_) => Ok(()),
        None => Err(NoMemory),
    }
}
