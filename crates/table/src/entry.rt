// An entry as its three words.
ghost use Rattle.std.specs.Prelude.{◌≡◌, ◌+◌, ◌*◌, ◌<◌, ◌≤◌, length};
ghost use Rattle.table.specs.Table.{unused, entry_of, key_of};
ghost use Rattle.table.specs.Rows.{words_at, no_words};

// State + 256 × letter + 65,536 × birthdate; the set; the rule field. All three are 0 where the entry is unused.
#[derive(Clone, Copy, Debug, PartialEq, Eq)]
pub struct EntryWords {
    pub first: u32,
    pub set: u32,
    pub rule: u32,
}

impl EntryWords {
    // How many words an entry has.
    pub const STRIDE: usize = 3;

    // The entry at a place of a table.
    pub fn at(words: &[u32], i: usize) -> EntryWords
        requires { (i + 1) * 3 ≤ length words.now }
        ensures { result ≡ words_at words.now i }
    {
        let at = i * EntryWords::STRIDE;
        EntryWords {
            first: words[at],
            set: words[at + 1],
            rule: words[at + 2],
        }
    }

    // An unused entry.
    pub fn none() -> EntryWords
        ensures { result ≡ no_words }
    {
        EntryWords {
            first: 0,
            set: 0,
            rule: 0,
        }
    }

    pub fn is_unused(self) -> bool
        ensures { result ≡ unused self.first self.set self.rule }
    {
        self == EntryWords::none()
    }

    pub fn state(self) -> u8
        ensures { result ≡ (entry_of self.first self.set self.rule).state }
    {
        (self.first % 256) as u8
    }

    pub fn letter(self) -> u8
        ensures { result ≡ (entry_of self.first self.set self.rule).letter }
    {
        (self.first / 256 % 256) as u8
    }

    pub fn birthdate(self) -> u32
        ensures { result ≡ (entry_of self.first self.set self.rule).birthdate }
    {
        self.first / 65536
    }

    // The entry's place in the order of state, letter and set, as one number.
    pub fn key(self) -> u64
        ensures { result ≡ key_of (entry_of self.first self.set self.rule) }
    {
        let state = (self.first % 256) as u64;
        let letter = (self.first / 256 % 256) as u64;
        let set = self.set as u64;
        (state * 256 + letter) * 4294967296 + set
    }
}
