//! Files of runs that are forged cell by cell: each is refused where the cell decides, and accepted where it decides nothing.

mod bytes;
mod columns;
mod forgeries;
mod one_hash;
mod shelf;
