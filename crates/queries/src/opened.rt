// A store that was opened: it begins with a sound head, and is at least as long as the layout of that head's settings.
ghost use Rattle.std.specs.Prelude.{◌≡◌};
ghost use Rattle.layout.specs.Address.{Numbered, Valid};
ghost use Rattle.layout.specs.PartsLaws.{BlockPart};
ghost use Rattle.layout.specs.Standing.{block_bits};
ghost use Rattle.calls.specs.LookBack.{reader};
ghost use Rattle.queries.specs.Readable.{Readable, readable_prop, words_of};

use layout::address::Address;
use layout::head::Head;
use layout::standing::Standing;
use layout::{address, parts};

#[derive(Clone, Copy)]
pub struct Opened<'a> {
    pub store: &'a [u32],
    pub head: Head,
    pub ghost readable: { Readable store.now head } by { readable_prop store.now head },
}

impl<'a> Opened<'a> {
    // The word at an address.
    pub fn read(&self, a: Address) -> u32
        requires { Valid self.now.head.settings a }
        ensures { result ≡ words_of self.now.head self.now.store.now a }
    {
        address::read(self.store, self.head.settings, a)
    }

    // The standing bits of block n.
    pub fn standing(&self, n: u32) -> Standing
        requires { Numbered self.now.head.settings n }
        ensures { result ≡ block_bits (words_of self.now.head self.now.store.now) n }
    {
        address::standing(self.store, self.head.settings, n)
    }

    // Block n, as a part of the store.
    pub fn block(&self, n: u32) -> &'a [u32]
        requires { Numbered self.now.head.settings n }
        ensures part { BlockPart self.now.head.settings self.now.store.now n result.now }
        ensures read { result.now ≡ (reader self.now.store.now).block n }
    {
        parts::block(self.store, self.head.settings, n)
    }
}
