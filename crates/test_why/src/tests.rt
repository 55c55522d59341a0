mod content;
mod foreign;
mod large;
mod names;
mod numbers;
mod other_names;
mod row;
mod syntax;
