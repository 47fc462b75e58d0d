//! Sums in letters, six bits each (U. Drepper, "Unix crypt using SHA-256 and SHA-512", version 0.6, step 22).
ghost use Rattle.std.specs.Prelude.{◌≡◌, ◌≤◌, ◌+◌, ◌*◌, ◌++◌, ℕ, List, [], get_or, length};
ghost use Rattle.arrayvec.specs.ArrayVec.{array_vec_len};
ghost use Rattle.dav_users_core.specs.CryptText.{groups, letters_of, number_of_three, text_256, text_512};

use arrayvec::ArrayVec;

/// The letters of a sum: 86 at most.
pub(crate) type Letters = ArrayVec<u8, 86>;

const LETTERS: &[u8; 64] = b"./0123456789ABCDEFGHIJKLMNOPQRSTUVWXYZabcdefghijklmnopqrstuvwxyz";

// Which three bytes of a sum of 64 bytes stand in four letters, the highest first.
const PLACES_512: [[u8; 3]; 21] = [
    [0, 21, 42],
    [22, 43, 1],
    [44, 2, 23],
    [3, 24, 45],
    [25, 46, 4],
    [47, 5, 26],
    [6, 27, 48],
    [28, 49, 7],
    [50, 8, 29],
    [9, 30, 51],
    [31, 52, 10],
    [53, 11, 32],
    [12, 33, 54],
    [34, 55, 13],
    [56, 14, 35],
    [15, 36, 57],
    [37, 58, 16],
    [59, 17, 38],
    [18, 39, 60],
    [40, 61, 19],
    [62, 20, 41],
];

// The same of a sum of 32 bytes.
const PLACES_256: [[u8; 3]; 10] = [
    [0, 10, 20],
    [21, 1, 11],
    [12, 22, 2],
    [3, 13, 23],
    [24, 4, 14],
    [15, 25, 5],
    [6, 16, 26],
    [27, 7, 17],
    [18, 28, 8],
    [9, 19, 29],
];

/// The letters of a sum of 64 bytes.
pub(crate) fn text_512(sum: &[u8]) -> Letters
    ensures { result.items ≡ text_512 sum.now }
{
    let mut text = Letters::new();
    add_groups(&mut text, sum, &PLACES_512);
    add_letters(&mut text, 2, byte_at(sum, 63));
    text
}

/// The letters of a sum of 32 bytes.
pub(crate) fn text_256(sum: &[u8]) -> Letters
    ensures { result.items ≡ text_256 sum.now }
{
    let mut text = Letters::new();
    add_groups(&mut text, sum, &PLACES_256);
    add_letters(&mut text, 3, byte_at(sum, 31) * 256 + byte_at(sum, 30));
    text
}

// Adds four letters for each three places.
fn add_groups(text: &mut Letters, sum: &[u8], places: &[[u8; 3]])
    requires fits { array_vec_len text.old + 4 * length places.now ≤ 86 }
    ensures items { text.new.items ≡ text.old.items ++ groups sum.now places.now }
    ensures len { array_vec_len text.new ≡ array_vec_len text.old + 4 * length places.now }
{
    'adding: for three in places {
        add_letters(text, 4, number_of_three(sum, three));
    }
}

// The number whose bytes stand at these places.
fn number_of_three(sum: &[u8], places: &[u8; 3]) -> u32
    ensures { result ≡ number_of_three sum.now places.now }
{
    let [high, middle, low] = *places;
    byte_at(sum, high) * 65536 + byte_at(sum, middle) * 256 + byte_at(sum, low)
}

// The byte at a place, or 0.
fn byte_at(sum: &[u8], place: u8) -> u32
    ensures value { result ≡ get_or sum.now place 0 }
    ensures byte { result ≤ 255 }
{
    match sum.get(place as usize) {
        Some(byte) => *byte as u32,
        None => 0,
    }
}

// Adds so many letters of the number.
fn add_letters(text: &mut Letters, count: usize, number: u32)
    requires fits { array_vec_len text.old + count ≤ 86 }
    ensures items { text.new.items ≡ text.old.items ++ letters_of count number }
    ensures len { array_vec_len text.new ≡ array_vec_len text.old + count }
{
    let mut rest = number;
    'adding: for _ in 0..count {
        text.push(LETTERS[(rest % 64) as usize]);
        rest /= 64;
    }
}
