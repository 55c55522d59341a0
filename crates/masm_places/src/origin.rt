/// Where a procedure stands.
#[derive(Clone, Copy, Debug, PartialEq, Eq)]
pub enum Origin {
    /// In the source.
    Program,
    /// In the library, so that no token of a source spells it.
    Library,
    /// In the kernel.
    Kernel,
}
