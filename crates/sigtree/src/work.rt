// The slices that calls borrow besides the tables.
#[derive(Drop)]
pub struct Work<'a> {
    pub scratch: &'a mut [u32],
    pub marks: &'a mut [u8],
    pub output: &'a mut [u32],
}
