/// How many operations a block has, up to 524,289, and its height, up to 1,025.
#[derive(Clone, Copy)]
pub struct Extent {
    pub operations: u32,
    pub height: u32,
}
