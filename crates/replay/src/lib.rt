// For the programs that replay recorded answers: lists of cases read, as unsigned decimal numbers and texts, and answers printed.
// Kept as it is: a list is read into an array of fixed size, since the project takes no heap; and what is printed goes piece by piece through `io`:
// `write!` into a buffer of fixed size would have to answer for a line that is longer, and `print!` takes the runtime, or its handle `rt.stdout()`, and
// answers a Result, which every function that prints would have to be lent and to hand on.
#![tactic(auto)]

ghost use Rattle.std.specs.Prelude.{◌≡◌, ◌+◌, not, ◌≤◌, ◌<◌, length, take, drop, replicate, IfSome, IsNone};
ghost use Rattle.std.specs.List.{take_while, list_all};
ghost use Rattle.std.specs.Char.{is_ascii_digit};
ghost use Rattle.std.specs.Float.{binary64};
ghost use Rattle.std.specs.Float.Ieee.{of_bits, to_bits};
ghost use Rattle.float.specs.Binary64.{same_bits};
ghost use Rattle.replay.specs.Numbers.{with_digit, digits, value, value_at, after, past, text_at};

use distance::{Point, Points};

// Where a program reads its input and prints its output.
pub const STDIN_FILENO: i32 = 0;

pub const STDOUT_FILENO: i32 = 1;

// Room for a list: 1,000,000 zeros. The length is said beside them, since lending the array as a slice asks for it.
pub fn room() -> [u8; 1000000]
    ensures { (1000000 ≡ length result) × (result ≡ replicate 1000000 0) }
{
    [0; 1000000]
}

// Reads a list of unsigned decimal numbers, and texts between them: the list, and the place from which on it is read.
// Kept as it is: no equality and no copy is derived of it, since a reader is moved along its list, and two of one list would be a mistake. It has a place
// beside the whole list, and no slice of what is left: the definitions of what it reads go by places.
#[derive(Debug, Drop)]
pub struct Numbers<'a> {
    pub text: &'a [u8],
    pub at: usize,
}

// A number below this has 18 digits or fewer, and takes one more in any case.
const SHORT: u64 = 1_000_000_000_000_000_000;

// n with the digit b after it, or 0 where that would take more than 64 bits.
#[tactic(auto, unfolding(crate::specs::Numbers::with_digit))]
fn with_digit(n: u64, b: u8) -> u64
    ensures { result ≡ with_digit n b }
{
    let d = u64::from(b.saturating_sub(b'0'));
    if n < SHORT {
        return n * 10 + d;
    }
    n.checked_mul(10)
        .and_then(|m| m.checked_add(d))
        .unwrap_or(0)
}

// How many bytes stand before the first digit.
fn bytes_before(s: &[u8]) -> usize
    ensures { result ≡ length (take_while (λ b. not (is_ascii_digit b)) s.now) }
{
    s.iter().take_while(|b| !b.is_ascii_digit()).count()
}

// A number as it is written: what its digits make, and how many they are. No digits make 0.
#[derive(Clone, Copy, Debug, PartialEq, Eq)]
struct Numeral {
    value: u64,
    digits: usize,
}

// The number that stands in front.
// Kept as it is: one loop for both, since most of a list is digits, and a fold and a count would go over them twice.
#[tactic(auto, using(crate::proofs::Digits::digits_on, crate::proofs::Digits::digits_stop, crate::proofs::Digits::digits_end, crate::proofs::Digits::value_on, crate::proofs::Digits::value_stop, crate::proofs::Digits::value_end))]
fn numeral_in(s: &[u8]) -> Numeral
    ensures value { result.value ≡ value 0 s.now }
    ensures digits { result.digits ≡ digits s.now }
    ensures bound { result.digits ≤ length s.now }
{
    let mut value = 0;
    for (digits, &b) in s.iter().enumerate() {
        if !b.is_ascii_digit() {
            return Numeral { value, digits };
        }
        value = with_digit(value, b);
    }
    Numeral {
        value,
        digits: s.len(),
    }
}

// What stands from `at` on.
fn rest(text: &[u8], at: usize) -> &[u8]
    ensures { result.now ≡ drop at text.now }
{
    text.get(at..).unwrap_or(&[])
}

// The n bytes behind the byte at `at`.
fn text_at(list: &[u8], at: usize, n: usize) -> Option<&[u8]>
    ensures some { IfSome result (λ s. (s.now ≡ take n (drop (at + 1) list.now)) × (at + 1 + n ≤ length list.now) × (length s.now ≡ n)) }
    ensures none { IsNone result → length list.now < at + 1 + n }
{
    list.get(at..)?.get(1..)?.get(..n)
}

impl<'a> Numbers<'a> {
    // The next number: 0 at the end of the text. A digit with which it would take more than 64 bits sets it back to 0.
    // Kept as it is: 0 and no `Option` at the end of the text, since the lists are whole, and each of their readers would have to say what None is to it.
    #[tactic(auto, using(crate::proofs::Digits::before_is), unfolding(crate::specs::Numbers::skip))]
    pub fn next_number(&mut self) -> u64
        ensures value { result ≡ value_at self.old.text.now self.old.at }
        ensures place { self.new ≡ past self.old 1 }
    {
        self.at += bytes_before(rest(self.text, self.at));
        let numeral = numeral_in(rest(self.text, self.at));
        self.at += numeral.digits;
        numeral.value
    }

    // The next number, as a length or an index.
    pub fn next_size(&mut self) -> usize
        ensures value { result ≡ value_at self.old.text.now self.old.at }
        ensures place { self.new ≡ past self.old 1 }
    {
        self.next_number() as usize
    }

    // The next number, as the bits of a float.
    pub fn next_float(&mut self) -> f64
        ensures value { result ≡ of_bits binary64 (value_at self.old.text.now self.old.at) }
        ensures place { self.new ≡ past self.old 1 }
    {
        float_of_bits(self.next_number())
    }

    // The next text: its number of bytes, a line feed, and the bytes. None where the list has fewer.
    #[tactic(auto, unfolding(crate::specs::Numbers::skip))]
    pub fn next_text(&mut self) -> Option<&'a [u8]>
        ensures text { self.new.text ≡ self.old.text }
        ensures value { IfSome result (λ s. s.now ≡ text_at self.old.text.now self.old.at) }
        ensures place { IfSome result (λ s. self.new.at ≡ after self.old.text.now self.old.at + 1 + length s.now) }
        ensures none { IsNone result → length self.old.text.now < after self.old.text.now self.old.at + 1 + value_at self.old.text.now self.old.at }
    {
        let n = self.next_size();
        let text = text_at(self.text, self.at, n)?;
        self.at += 1 + n;
        Some(text)
    }
}

// Lets each case of a list be answered. The list says first how many it has.
fn answer_all<F: FnMut(&mut Numbers)>(text: &[u8], mut answer: F)
    requires { F.IsAlwaysCallable answer }
{
    let mut list = Numbers { text, at: 0 };
    for _ in 0..list.next_number() {
        answer(&mut list);
    }
}

// Reads a list from standard input, and lets each case of it be answered.
pub fn each_case<F: FnMut(&mut Numbers)>(answer: F)
    requires { F.IsAlwaysCallable answer }
{
    let mut text = room();
    let n = io::read_full(STDIN_FILENO, &mut text);
    answer_all(&text[..n], answer);
}

// The value with these bits; every NaN pattern is NaN.
pub fn float_of_bits(bits: u64) -> f64
    ensures { result ≡ of_bits binary64 bits }
{
    std::num::f64_from_bits_with_nan(bits)
}

// The bits of x, of every NaN the same.
pub fn bits_of(x: f64) -> u64
    ensures { result ≡ to_bits binary64 x }
{
    std::num::f64_to_bits_with_nan(x)
}

// Whether all floats are x, bit for bit.
pub fn all_floats(s: &[f64], x: f64) -> bool
    ensures { result ≡ list_all (λ y. same_bits y x) s.now }
{
    s.iter().all(|&y| float::same_bits(y, x))
}

pub fn print_number(n: u64) {
    io::print_decimal(STDOUT_FILENO, n);
}

// Prints a label or an index, and -1 for one that is negative.
pub fn print_label(n: i32) {
    match u64::try_from(n) {
        Ok(n) => print_number(n),
        Err(_) => {
            io::write_all(STDOUT_FILENO, b"-1");
        }
    }
}

// Prints the bits of x.
pub fn print_float(x: f64) {
    print_number(bits_of(x));
}

pub fn space() {
    io::write_all(STDOUT_FILENO, b" ");
}

pub fn line_end() {
    io::write_all(STDOUT_FILENO, b"\n");
}

// Prints 2 where the work slices are free, else 1 where they are as they were, floats 0.5 and words 9, and 0 where they are not.
pub fn print_work(free: bool, floats: &[f64], words: &[i32]) {
    if free {
        space();
        print_number(2);
    } else {
        print_flag(all_floats(floats, 0.5) && words.iter().all(|&w| w == 9));
    }
}

// Prints each item behind a space.
pub fn print_each<T: Copy, F: Fn(T)>(items: &[T], print: F)
    requires { F.IsAlwaysCallable print }
{
    for &item in items {
        space();
        print(item);
    }
}

// Prints the bits of x and y, each behind a space.
fn print_point(p: Point) {
    space();
    print_float(p.x);
    space();
    print_float(p.y);
}

// Prints x and y of each point.
pub fn print_points(points: Points) {
    for p in points.iter() {
        print_point(p);
    }
}

// Prints the number of places, and of each one x, y and the item of `column`.
pub fn print_places<T: Copy, F: Fn(T)>(places: Points, column: &[T], print: F)
    requires { F.IsAlwaysCallable print }
{
    print_number(places.len() as u64);
    for (p, &item) in places.iter().zip(column) {
        print_point(p);
        space();
        print(item);
    }
}

// Prints 1 where b holds, else 0, behind a space.
pub fn print_flag(b: bool) {
    space();
    print_number(u64::from(b));
}
