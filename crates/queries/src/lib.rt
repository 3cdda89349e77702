// What every call but a start begins with: a store whose head is sound and that is at least as long as its layout, or the refusal of its words.
#![tactic(auto)]

mod opened;
pub mod rows;
mod unsound;

ghost use Rattle.queries.specs.Opens.{Opens};

use layout::head;
use layout::refusal::Refusal;
pub use opened::Opened;
pub use unsound::Unsound;

// Refusals 2, 3 and 4: else the store as it was opened, with its head.
#[inline]
pub fn open(store: &[u32]) -> Result<Opened<'_>, Refusal>
    ensures { Opens store.now result }
{
    let head = head::read_head(store)?;
    if store.len() < head.settings.words() {
        return Err(Refusal::ShortStore);
    }
    Ok(Opened { store, head })
}
