/// The names of the files that `run` writes.
#[derive(Clone, Copy)]
pub struct Outputs<'a> {
    pub table: &'a str,
    pub statement: &'a str,
}
