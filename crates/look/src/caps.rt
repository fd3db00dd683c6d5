// Caps of the variables, as low numbers. The policy iteration finds the greatest point below them.
ghost use Rattle.std.specs.Prelude.{◌≡◌, ◌<◌};
ghost use Rattle.definitions.specs.Limits.{lead_limit, table_rows, stride};
ghost use Rattle.records.specs.Decoded.{Near};
ghost use Rattle.policy_iteration.specs.Tables.{Table};
ghost use Rattle.look.specs.Look.{level, cap_for, CapsFor};

use policy_iteration::values::{HALF, LOW};
use records::limits::{LEAD_LIMIT, SPAN_LIMIT, STRIDE, STRIDE_64, TABLE};

// Where the first list does not hold a variable: so far from 0 that a second side that depends on it shows every trial possible.
const FAR: u32 = LOW + (SPAN_LIMIT + 1 + LEAD_LIMIT + (STRIDE_64 - 1) * 2 * LEAD_LIMIT) as u32;

// Less an offset number: the low number of its opposite.
const OPPOSITE: u32 = LOW + HALF;

// Every cap is 0.
pub fn level_caps() -> [u32; STRIDE]
    ensures { result ≡ level }
{
    [LOW; STRIDE]
}

// The cap of a variable with this coefficient in the first list: its opposite, or far where it is blank.
fn cap_for(k: u32) -> u32
    requires { Near lead_limit k }
    ensures { result ≡ cap_for k }
{
    if k == 0 { FAR } else { OPPOSITE - k }
}

// The caps that the first list sets: the objective's row of the left table.
pub fn caps_of(left: &[u32; TABLE], row: usize) -> [u32; STRIDE]
    requires { Table lead_limit left.now × (row < table_rows) }
    ensures { CapsFor left.now row stride result }
{
    let base = row * STRIDE;
    let mut out = [0u32; STRIDE];
    for j in 0..STRIDE {
        out[j] = cap_for(left[base + j]);
    }
    out
}
