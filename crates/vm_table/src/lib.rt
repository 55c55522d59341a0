//! Tables of elements: a list of rows, and views that read a row cell by cell.
#![tactic(auto)]

mod blocks;
pub mod column;
mod main_view;
mod table;
mod view;

pub use main_view::MainView;
pub use table::{Table, tables_cross};
pub use view::{Row, RowPair, View};
