// The lines at which a method begins and ends, the number of lines where it does not.
#[derive(Clone, Copy, Default)]
pub(crate) struct Method {
    pub(crate) begin: u16,
    pub(crate) end: u16,
}
