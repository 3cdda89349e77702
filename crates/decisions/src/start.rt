// Whether a start is accepted: refusals 1, 2 and 4.
ghost use Rattle.calls.specs.Refusals.{start_tests};
ghost use Rattle.decisions.specs.Verdict.{Verdict};

use layout::refusal::Refusal;
use layout::settings::Settings;

// A start: refusals 1, 2 and 4, else the settings to go on with. The head that the store held before does not matter.
pub fn decide_start(store: &[u32], asked: Settings) -> Result<Settings, Refusal>
    ensures { Verdict (start_tests asked store.now) asked result }
{
    let settings = Settings::new(asked.block, asked.useful, asked.blocks, asked.tags)?;
    if store.len() < layout::HEAD_LEN {
        return Err(Refusal::ShortHead);
    }
    if store.len() < settings.words() {
        return Err(Refusal::ShortStore);
    }
    Ok(settings)
}
