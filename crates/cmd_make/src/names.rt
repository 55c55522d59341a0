/// The names of the files that `make` writes.
#[derive(Clone, Copy)]
pub struct MadeNames<'a> {
    pub source: &'a str,
    pub inputs: &'a str,
}
