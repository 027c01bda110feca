// What stands at the start of units: digits, a unit for the first time, a word.
ghost use Rattle.std.specs.Prelude.{◌≡◌, ◌≤◌, T, length, eqb, position};
ghost use Rattle.std.specs.List.{list_all, list_any, prefix_len};
ghost use Rattle.lists.specs.Lists.{every};
ghost use Rattle.formats.specs.Tokens.{starts_with, same, is_digit, fixed_number};

const ZERO: u16 = b'0' as u16;

const NINE: u16 = b'9' as u16;

// A number above 999 is told as this.
const TOO_MUCH: u16 = 1000;

#[tactic(auto, unfolding(formats::specs::Tokens::is_digit))]
pub fn is_digit(u: u16) -> bool
    ensures { result ≡ is_digit u }
{
    (ZERO..=NINE).contains(&u)
}

// All of them are digits.
pub fn are_digits(us: &[u16]) -> bool
    ensures { result ≡ list_all is_digit us.now }
{
    us.iter().all(|u| is_digit(*u))
}

// How many digits stand at the start.
pub fn digits(us: &[u16]) -> usize
    ensures count { result ≡ prefix_len is_digit us.now }
    ensures within { result ≤ length us.now }
{
    us.iter().take_while(|u| is_digit(**u)).count()
}

// How many u stand at the start.
pub fn run_of(us: &[u16], u: u16) -> usize
    ensures count { result ≡ prefix_len (eqb u) us.now }
    ensures within { result ≤ length us.now }
{
    us.iter().take_while(|v| u == **v).count()
}

// The number that digits write.
pub fn number_of(digits: &[u16]) -> u16
    requires { T (every is_digit digits.now) }
    ensures { result ≡ fixed_number digits.now }
{
    let mut n = 0;
    for digit in digits {
        n = (10 * n + (*digit - ZERO)).min(TOO_MUCH);
    }
    n
}

// Where the first u stands.
pub fn position_of(us: &[u16], u: u16) -> Option<usize>
    ensures { result ≡ position (λ v. eqb v u) us.now }
{
    us.iter().position(|v| *v == u)
}

// The units begin with the word.
pub fn starts_with(us: &[u16], word: &[u8]) -> bool
    ensures { result ≡ starts_with word.now us.now }
{
    word.len() <= us.len() && word.iter().zip(us).all(|(b, u)| u16::from(*b) == *u)
}

// One of the words stands at the start.
pub fn starts_with_any(us: &[u16], words: &[&[u8]]) -> bool
    ensures { result ≡ list_any (λ word. starts_with word.now us.now) words.now }
{
    words.iter().any(|word| starts_with(us, *word))
}

// The units are the word.
pub fn is_word(us: &[u16], word: &[u8]) -> bool
    ensures { result ≡ same word.now us.now }
{
    word.len() == us.len() && starts_with(us, word)
}
