// The words of a table, read: how many sections there are, the words of a head by their names, the part of a section's items.
#![tactic(auto)]

pub mod runs;

ghost use Rattle.std.specs.Prelude.{◌≡◌, ◌+◌, ◌*◌, ◌≤◌, ◌<◌, T, length, get_or, drop};
ghost use Rattle.formats.specs.Where.{has_condition, is_text};
ghost use Rattle.formats.specs.Choice.{counted};
ghost use Rattle.formats.specs.Minus.{first_has_condition, exception_a};
ghost use Rattle.formats.specs.Items.{kind_of};
ghost use Rattle.tables.specs.Words.{head_at};
ghost use Rattle.tables.specs.Encode.{has_half};
ghost use Rattle.tables.specs.Decode.{two_words};
ghost use Rattle.tables.specs.Rules.{head_in_range, passes};
ghost use Rattle.table_words.specs.Sections.{section_in, head_from, head_in, items_start, ItemsOf};

use tables::{flags, heads, kinds};

// The words of a section's head.
#[derive(Clone, Copy)]
pub struct HeadWords {
    pub kind: u16,
    pub colour: u16,
    pub operator: u16,
    pub negative: u16,
    pub whole_low: u16,
    pub whole_high: u16,
    pub millionths_low: u16,
    pub millionths_high: u16,
    pub shift: u16,
    pub flags: u16,
    pub decimals: u16,
    pub items: u16,
}

// The kinds of sections.
#[derive(Clone, Copy, PartialEq, Eq)]
pub enum Kind {
    Literal,
    General,
    Number,
    Text,
    DateTime,
    Scientific,
    Fraction,
}

// The words of a table: words that keep the table rules.
#[derive(Clone, Copy)]
pub struct Table<'a> {
    pub words: &'a [u16],
    pub ghost passes: { T (passes words.now) },
}

// A section of a table, by its place.
#[derive(Clone, Copy)]
pub struct TableSection<'a> {
    pub table: Table<'a>,
    pub place: u16,
    pub ghost there: { place < get_or table.words.now 0 0 },
}

// How many sections there are.
pub fn section_count(words: &[u16]) -> usize
    requires { 1 ≤ length words.now }
    ensures { result ≡ get_or words.now 0 0 }
{
    words[0] as usize
}

// The words of the head of section i, of words that need not be a table.
pub fn head_at(words: &[u16], i: usize) -> HeadWords
    requires { (i ≤ 3) × (13 + 12 * i ≤ length words.now) }
    ensures { head_from result ≡ head_at (drop (1 + 12 * i) words.now) }
{
    let a = 1 + heads::WORDS * i;
    HeadWords {
        kind: words[a],
        colour: words[a + heads::COLOUR],
        operator: words[a + heads::OPERATOR],
        negative: words[a + heads::NEGATIVE],
        whole_low: words[a + heads::WHOLE_LOW],
        whole_high: words[a + heads::WHOLE_HIGH],
        millionths_low: words[a + heads::MILLIONTHS_LOW],
        millionths_high: words[a + heads::MILLIONTHS_HIGH],
        shift: words[a + heads::SHIFT],
        flags: words[a + heads::FLAGS],
        decimals: words[a + heads::DECIMALS],
        items: words[a + heads::ITEMS],
    }
}

// A number in two words.
pub fn number(low: u16, high: u16) -> u32
    ensures { result ≡ two_words low high }
{
    low as u32 + 65536 * high as u32
}

impl<'a> Table<'a> {
    ghost use Rattle.table_words.specs.Tabled.{section_of};

    // How many sections there are: one to four.
    pub fn section_count(self) -> u16
        ensures count { result ≡ get_or self.entry.words.now 0 0 }
        ensures least { 1 ≤ result }
        ensures most { result ≤ 4 }
    {
        self.words[0]
    }

    // The section at a place.
    pub fn section(self, place: u16) -> TableSection<'a>
        requires { place < get_or self.words.now 0 0 }
        ensures table { result.table ≡ self.entry }
        ensures place { result.place ≡ place }
        ensures section { section_of result ≡ section_in self.entry.words.now place }
    {
        TableSection { table: self, place }
    }
}

impl<'a> TableSection<'a> {
    ghost use Rattle.table_words.specs.Tabled.{sections_of, section_of, kind_named};

    // The words of its head.
    pub fn head(self) -> HeadWords
        ensures words { head_from result ≡ head_in self.entry.table.words.now self.entry.place }
        ensures range { T (head_in_range (head_from result)) }
    {
        head_at(self.table.words, self.place as usize)
    }

    pub fn kind(self) -> Kind
        ensures { kind_named result ≡ kind_of (section_of self.entry) }
    {
        match self.head().kind {
            kinds::LITERAL => Kind::Literal,
            kinds::GENERAL => Kind::General,
            kinds::NUMBER => Kind::Number,
            kinds::TEXT => Kind::Text,
            kinds::DATE_TIME => Kind::DateTime,
            kinds::SCIENTIFIC => Kind::Scientific,
            _ => Kind::Fraction,
        }
    }

    pub fn is_text(self) -> bool
        ensures { result ≡ is_text (section_of self.entry) }
    {
        self.head().kind == kinds::TEXT
    }

    pub fn has_condition(self) -> bool
        ensures { result ≡ has_condition (section_of self.entry) }
    {
        self.head().operator != 0
    }

    // Whether it groups digits.
    pub fn is_grouped(self) -> bool
        ensures { result ≡ (section_of self.entry).grouped }
    {
        self.head().flags % 2 == flags::GROUPING
    }

    // Whether it has a 12-hour clock.
    pub fn is_twelve_hour(self) -> bool
        ensures { result ≡ has_half (section_of self.entry).items }
    {
        flags::TWELVE_HOUR <= self.head().flags
    }

    // Exception (a) of the added minus: a table that passes has its flag right.
    pub fn no_minus(self) -> bool
        ensures { result ≡ exception_a (counted (sections_of self.entry.table)) self.entry.place (has_condition (section_of self.entry))
            (first_has_condition (sections_of self.entry.table)) }
    {
        self.head().flags / flags::NO_MINUS % 2 == 1
    }

    // Where its item words begin.
    fn items_start(self) -> usize
        ensures { result ≡ items_start self.entry.table.words.now self.entry.place }
    {
        let words = self.table.words;
        let mut start = 1 + heads::WORDS * self.table.section_count() as usize;
        for k in 0..self.place as usize {
            let h = head_at(words, k);
            start += 2 * h.items as usize;
        }
        start
    }

    // The words of its items.
    pub fn items(self) -> &'a [u16]
        ensures { ItemsOf (section_of self.entry) result.now }
    {
        let words = self.table.words;
        let start = self.items_start();
        let h = head_at(words, self.place as usize);
        let end = start + 2 * h.items as usize;
        &words[start..end]
    }
}
