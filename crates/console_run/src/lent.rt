use layout::ROW_LEN;
use layout::settings::Settings;

// "The store has 16,000 words." The two buffers are large enough for every settings.
pub const STORE: usize = 16000;

pub const ROWS: usize = ROW_LEN * Settings::MOST_TAGS as usize;

pub const LIST: usize = Settings::MOST_BLOCKS as usize;

// The words that a caller lends to the console: the register's store, and a look-back's two buffers. (Each function that is lent them says that it gives
// back the same three, `SameLent`: what a struct of `&mut` holds can be exchanged, and no type says otherwise.)
#[derive(Drop)]
pub struct LentWords<'a> {
    pub store: &'a mut [u32],
    pub rows: &'a mut [u32],
    pub list: &'a mut [u32],
}
