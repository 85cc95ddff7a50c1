// The numbers that words are: indices and sizes, signed numbers, words of 16 digits in base 16, and marks of mutators.
ghost use Rattle.std.specs.Prelude.{◌≡◌, ◌≤◌, ◌<◌, ◌^◌, length, true, IfSome};
ghost use Rattle.std.specs.Char.{digit_value};
ghost use Rattle.std.specs.List.{list_all};
ghost use Rattle.std.specs.Str.Parse.{digits_value};
ghost use Rattle.spur_graph.specs.Words.{number_in, hex_in, signed_in, mutator_in, is_digit, is_hex_digit, is_number, is_hex};
ghost use Rattle.script_text.specs.Reading.{Gives};

fn is_digit(b: u8) -> bool
    ensures { result ≡ is_digit b }
{
    b.is_ascii_digit()
}

fn is_hex_digit(b: u8) -> bool
    ensures { result ≡ is_hex_digit b }
{
    is_digit(b) || b >= b'a' && b <= b'f'
}

fn all_digits(word: &[u8]) -> bool
    ensures { result ≡ list_all is_digit word.now }
{
    word.iter().all(|b| is_digit(*b))
}

fn all_hex_digits(word: &[u8]) -> bool
    ensures { result ≡ list_all is_hex_digit word.now }
{
    word.iter().all(|b| is_hex_digit(*b))
}

fn is_number(word: &[u8]) -> bool
    ensures { result ≡ is_number word.now }
{
    word.len() >= 1 && word.len() <= 20 && (word.len() <= 1 || word[0] != b'0') && all_digits(word)
}

fn is_hex(word: &[u8]) -> bool
    ensures { result ≡ is_hex word.now }
{
    word.len() == 16 && all_hex_digits(word)
}

fn value_of_digit(b: u8) -> u128
    requires { is_hex_digit b ≡ true }
    ensures { result ≡ digit_value b }
{
    if b <= b'9' {
        (b - b'0') as u128
    } else {
        (b - b'a' + 10) as u128
    }
}

/// The number that digits spell.
fn value_of(radix: u128, digits: &[u8]) -> u128
    requires radix { 1 ≤ radix }
    requires digits { list_all is_hex_digit digits.now ≡ true }
    requires small { digits_value radix digits.now < 2 ^ 80 }
    ensures { result ≡ digits_value radix digits.now }
{
    let mut value = 0;
    'digits: for (i, b) in digits.iter().enumerate() {
        value = value * radix + value_of_digit(*b);
    }
    value
}

/// The number that a word is, without a leading zero.
#[tactic(auto, unfolding(spur_graph::specs::Words::number_in))]
pub fn number_of(word: &[u8]) -> Option<u128>
    ensures value { Gives (λ n. n) result (number_in word.now) }
    ensures small { IfSome result (λ n. n < 10 ^ 20) }
{
    if !is_number(word) {
        return None;
    }
    Some(value_of(10, word))
}

/// The 64 bits that 16 digits of base 16 are.
#[tactic(auto, unfolding(spur_graph::specs::Words::hex_in))]
pub fn hex_of(word: &[u8]) -> Option<u64>
    ensures { Gives (λ n. n) result (hex_in word.now) }
{
    if !is_hex(word) {
        return None;
    }
    Some(value_of(16, word) as u64)
}

/// The number that a word is, or `-` and a number that is not 0.
#[tactic(auto, unfolding(spur_graph::specs::Words::signed_in))]
pub fn signed_of(word: &[u8]) -> Option<i128>
    ensures { Gives (λ n. n) result (signed_in word.now) }
{
    if word.len() >= 1 && word[0] == b'-' {
        let (_, digits) = word.split_at(1);
        let n = number_of(digits)?;
        if n == 0 {
            return None;
        }
        return Some(-(n as i128));
    }
    let n = number_of(word)?;
    Some(n as i128)
}

/// The mutator that a mark is: a byte, `@` as its caller has seen, and a number below 16.
#[tactic(auto, unfolding(spur_graph::specs::Words::mutator_in))]
pub fn mutator_of(mark: &[u8]) -> Option<u8>
    requires { 1 ≤ length mark.now }
    ensures { Gives (λ n. n) result (mutator_in mark.now) }
{
    let (_, digits) = mark.split_at(1);
    let n = number_of(digits)?;
    if n < 16 { Some(n as u8) } else { None }
}
