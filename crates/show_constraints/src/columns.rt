//! The columns of each table by name (docs/CONSTRAINTS.md, "Columns").
ghost use Rattle.std.specs.Prelude.{◌≡◌, [], length, map, slice_index_or};
ghost use Rattle.air_kit.specs.Tables.{columns as width};
ghost use Rattle.show_constraints.specs.Columns.{columns_of};

use air_kit::TableName;

const MAIN: [&str; 65] = [
    "clk", "fmp", "ctx", "sys", "f0", "f1", "f2", "f3", "addr", "b0", "b1", "b2", "b3", "b4", "b5",
    "b6", "h0", "h1", "h2", "h3", "h4", "h5", "h6", "h7", "sp", "gc", "ox", "c0", "c1", "c2", "s0",
    "s1", "s2", "s3", "s4", "s5", "s6", "s7", "s8", "s9", "s10", "s11", "s12", "s13", "s14", "s15",
    "depth", "key", "inv", "ha", "lv", "w0", "w1", "w2", "w3", "t0", "t1", "t2", "t3", "t4", "t5",
    "t6", "t7", "t8", "t9",
];

const RANGE: [&str; 2] = ["count", "v"];

const HASHER: [&str; 15] = [
    "mode", "cont", "more", "x0", "x1", "x2", "x3", "x4", "x5", "x6", "x7", "x8", "x9", "x10",
    "x11",
];

const BITWISE: [&str; 12] = [
    "op", "a", "b", "a0", "a1", "a2", "a3", "b0", "b1", "b2", "b3", "z",
];

const MEMORY: [&str; 14] = [
    "kind", "ctx", "addr", "clk", "v0", "v1", "v2", "v3", "n0", "n1", "d0", "d1", "a0", "a1",
];

const KERNEL: [&str; 5] = ["d0", "d1", "d2", "d3", "count"];

const LEFT: [&str; 1] = ["key"];

/// The name of a column of a table; empty where there is none.
pub fn column_name(table: TableName, column: usize) -> &'static str
    ensures { result.now ≡ slice_index_or (columns_of table) column [] }
{
    match column_names(table).get(column) {
        Some(name) => name,
        None => "",
    }
}

/// The names of a table's columns, in the order in which they lie in a row.
pub fn column_names(table: TableName) -> &'static [&'static str]
    ensures names { map (λ name. name.now) result.now ≡ columns_of table }
    ensures count { length result.now ≡ width table }
{
    match table {
        TableName::Main => &MAIN,
        TableName::Range => &RANGE,
        TableName::Hasher => &HASHER,
        TableName::Bitwise => &BITWISE,
        TableName::Memory => &MEMORY,
        TableName::Kernel => &KERNEL,
        TableName::Left => &LEFT,
    }
}
