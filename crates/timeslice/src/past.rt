// What a look-back reads: a store that was opened, and the second that is looked back at.
use queries::Opened;

#[derive(Clone, Copy)]
pub(crate) struct Past<'a> {
    pub opened: Opened<'a>,
    pub second: u32,
}
