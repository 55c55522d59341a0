ghost use Rattle.std.specs.Prelude.{◌≡◌, ◌<◌, ◌^◌, [], length, slice_index_or};
ghost use Rattle.chip_columns.specs.LeftColumns.{key};
ghost use Rattle.air_kit.specs.Rows.{claim_at, spot_at};
ghost use Rattle.air_kit.specs.Traces.{HasCounts, claim_of, lengths_of, spot_of};
ghost use Rattle.vm_table.specs.Rows.{row_cells};
ghost use Rattle.checker.specs.Settings.{claim_in};

use crate::numbering::rows_in;
use air_kit::{Place, Public, TableName, Trace};
use chip_columns::LeftView;
use vm_field::Felt;
use vm_table::{Row, Table, View};

/// What the places of a trace have in common.
#[derive(Clone, Copy)]
pub(crate) struct Setting<'a> {
    pub public: &'a Public,
    pub lengths: [u32; 7],
    pub left_key: Felt,
}

impl<'a> Setting<'a> {
    /// That of a trace.
    pub fn of(trace: &Trace, public: &'a Public) -> Setting<'a>
        requires { HasCounts trace.now }
        ensures claim { claim_in result ≡ claim_of public.entry.now trace.now }
        ensures public { result.public.now ≡ public.entry.now }
    {
        Setting {
            public,
            lengths: lengths_of(trace),
            left_key: first_key(&trace.left),
        }
    }

    /// The place of row i of a table.
    pub fn place<'b, const W: usize>(&self, table: &'b Table<W>, i: usize) -> Place<'a, Row<'b, W>>
        requires within { i < length table.now }
        requires small { i < 2 ^ 32 }
        ensures claim { claim_at result ≡ claim_in self.now }
        ensures public { result.public.now ≡ self.now.public.now }
        ensures spot { spot_at row_cells result ≡ spot_of table.now i }
    {
        let rows = table.rows();
        let next = if i + 1 < rows {
            Some(table.row(i + 1))
        } else {
            None
        };
        Place {
            cur: table.row(i),
            next,
            row: i as u32,
            lengths: self.lengths,
            left_key: self.left_key,
            public: self.public,
        }
    }
}

fn lengths_of(trace: &Trace) -> [u32; 7]
    requires { HasCounts trace.now }
    ensures { result ≡ lengths_of trace.now }
{
    [
        rows_in(trace, TableName::Main) as u32,
        rows_in(trace, TableName::Range) as u32,
        rows_in(trace, TableName::Hasher) as u32,
        rows_in(trace, TableName::Bitwise) as u32,
        rows_in(trace, TableName::Memory) as u32,
        rows_in(trace, TableName::Kernel) as u32,
        rows_in(trace, TableName::Left) as u32,
    ]
}

// The key of the first cell that is left, or 0.
fn first_key(left: &Table<1>) -> Felt
    ensures { result ≡ key (slice_index_or left.now 0 []) }
{
    if 0 < left.rows() {
        left.row(0).key()
    } else {
        Felt::ZERO
    }
}
