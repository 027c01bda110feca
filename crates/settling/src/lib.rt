// Settles the runs of m among a section's item words: each is a month or minutes, by the nearest runs on both sides of it.
#![tactic(auto)]

ghost use Rattle.std.specs.Prelude.{◌≡◌, cond, ◌||◌, List, [], ◌+◌, ◌<◌, ◌≤◌, length, get_or, T};
ghost use Rattle.lists.specs.Lists.{every};
ghost use Rattle.formats.specs.Items.{Item, settled};
ghost use Rattle.tables.specs.Words.{entries_words};
ghost use Rattle.tables.specs.Encode.{run_entries};
ghost use Rattle.settling.specs.Settle.{is_no_minute, is_run_tag, seconds_in, hours_after, settled_at};

use tables::tags;

// A date or time run, or an elapsed item.
fn is_run(tag: u16) -> bool
    ensures { result ≡ is_run_tag tag }
{
    (tags::YEAR..=tags::ELAPSED_SECONDS).contains(&tag) & (tag != tags::PART)
}

// Whether the nearest run among these item words is seconds.
fn seconds_in(words: &[u16]) -> bool
    ensures { result ≡ seconds_in words.now }
{
    for item in words.chunks_exact(2) {
        let tag = item[0];
        if is_run(tag) {
            return (tag == tags::SECOND) | (tag == tags::ELAPSED_SECONDS);
        }
    }
    false
}

// Whether the nearest run behind an item is hours, where `hours` says it of what stands before the item.
fn hours_after(tag: u16, hours: bool) -> bool
    ensures { result ≡ hours_after tag hours }
{
    if is_run(tag) {
        return (tag == tags::HOUR) | (tag == tags::ELAPSED_HOURS);
    }
    hours
}

// m means minutes behind hours, or before seconds: the nearest run among the later item words.
fn means_minutes(hours: bool, later: &[u16]) -> bool
    ensures { result ≡ (hours || seconds_in later.now) }
{
    if hours {
        return true;
    }
    seconds_in(later)
}

fn month_or_minute(minutes: bool) -> u16
    ensures { result ≡ cond minutes 15 12 }
{
    if minutes { tags::MINUTE } else { tags::MONTH }
}

// Settles the item at the place i, and says whether the nearest run behind it is hours. Most items are no runs, so they are told first.
fn settle_item(words: &mut [u16], i: usize, hours: bool) -> bool
    requires { (length words.old ≤ 508) × (i + 1 < length words.old) }
    ensures after { result ≡ hours_after (get_or words.old i 0) hours }
    ensures word { words.new ≡ settled_at words.old i hours }
{
    let tag = words[i];
    if tag < tags::YEAR {
        return hours;
    }
    if (tag == tags::MONTH) & (words[i + 1] <= 2) {
        let minutes = means_minutes(hours, &words[i + 2..]);
        words[i] = month_or_minute(minutes);
        return false;
    }
    hours_after(tag, hours)
}

// Settles the runs of m among the words of a section's items, each of which is written as a month.
pub fn settle(words: &mut [u16])
    requires { length words.old ≤ 508 }
    ensures { (is : List Item) → T (every is_no_minute is) → words.old ≡ entries_words (run_entries is) []
        → words.new ≡ entries_words (run_entries (settled is)) [] }
{
    let mut hours = false;
    for k in 0..words.len() / 2 {
        hours = settle_item(words, 2 * k, hours);
    }
}
