// A history: what its accepted calls amount to, and the numbers that its calls are drawn from.
use crate::asked::Change;
use crate::book::Book;
use crate::log::Log;
use crate::random::Random;
use crate::settings::Settings;

#[derive(Drop)]
pub struct History {
    pub random: Random,
    // How many words of the store it lends.
    pub length: usize,
    // It is to run near the last second.
    pub late: bool,
    // A start was accepted.
    pub started: bool,
    // The second of the last accepted change or clock move.
    pub clock: u32,
    pub log: Log,
    // Before the first start the book has the settings that this will have.
    pub book: Book,
}

impl History {
    // Nothing is started yet. The store is lent as long as the layout or somewhat longer.
    pub(crate) fn new(mut random: Random, settings: Settings) -> History {
        let more = random.below(80).saturating_sub(40) as usize;
        let late = random.once_in(8);
        History {
            random,
            length: settings.layout().saturating_add(more),
            late,
            started: false,
            clock: 0,
            log: Log::new(),
            book: Book::new(settings),
        }
    }

    pub fn settings(&self) -> Settings {
        self.book.settings
    }

    // An accepted start begins log and book anew.
    pub fn begin(&mut self, settings: Settings) {
        self.started = true;
        self.clock = 0;
        self.log = Log::new();
        self.book = Book::new(settings);
    }

    // An accepted change goes into the log, as it has gone into the book.
    pub fn enter(&mut self, change: Change) {
        self.clock = change.second;
        self.log.enter(change.second, change.action);
    }
}
