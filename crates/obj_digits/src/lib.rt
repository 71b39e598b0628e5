// A number's decimal digits where there is room for them: two at a time, without a loop below 10^8.
#![tactic(auto)]

ghost use Rattle.std.specs.Prelude.{◌≡◌, ◌+◌, ◌≤◌, ◌<◌, length};
ghost use Rattle.decimal.specs.Text.{ascii, decimal, named};
ghost use Rattle.decimal.specs.Stored.{Stored};
ghost use Rattle.obj_digits.specs.Pairs.{pair};

use decimal::put_decimal;

// The byte of a digit.
fn digit(d: u32) -> u8
    requires { d < 10 }
    ensures { result ≡ 48 + d }
{
    b'0' + (d as u8)
}

// Two digits of n, the first of them 0 where n is below 10.
fn put_pair(text: &mut [u8], at: usize, n: u32) -> usize
    requires { (n < 100) × (at + 2 ≤ length text.old) }
    ensures { Stored at (pair n) text.old text.new result }
{
    text[at] = digit(n / 10);
    text[at + 1] = digit(n % 10);
    at + 2
}

// The digits of n, which are one or two.
fn put_two(text: &mut [u8], at: usize, n: u32) -> usize
    requires { (n < 100) × (at + length (decimal n) ≤ length text.old) }
    ensures { Stored at (decimal n) text.old text.new result }
{
    if n < 10 {
        text[at] = digit(n);
        return at + 1;
    }
    put_pair(text, at, n)
}

// The digits of n, which are four at most.
fn put_four(text: &mut [u8], at: usize, n: u32) -> usize
    requires { (n < 10000) × (at + length (decimal n) ≤ length text.old) }
    ensures { Stored at (decimal n) text.old text.new result }
{
    if n < 100 {
        return put_two(text, at, n);
    }
    let to = put_two(text, at, n / 100);
    put_pair(text, to, n % 100)
}

// The digits of n, which are eight at most.
fn put_eight(text: &mut [u8], at: usize, n: u32) -> usize
    requires { (n < 100000000) × (at + length (decimal n) ≤ length text.old) }
    ensures { Stored at (decimal n) text.old text.new result }
{
    if n < 10000 {
        return put_four(text, at, n);
    }
    let high = put_four(text, at, n / 10000);
    let low = put_pair(text, high, n / 100 % 100);
    put_pair(text, low, n % 100)
}

// The digits of any n.
fn put_digits(text: &mut [u8], at: usize, n: u64) -> usize
    requires { at + length (decimal n) ≤ length text.old }
    ensures { Stored at (decimal n) text.old text.new result }
{
    if n < 100000000 {
        return put_eight(text, at, n as u32);
    }
    at + put_decimal(text, at, n)
}

// A space and n: how every number of the text stands there.
pub fn put_spaced(text: &mut [u8], at: usize, n: u64) -> usize
    requires { at + 1 + length (decimal n) ≤ length text.old }
    ensures { Stored at (named (ascii " ") n) text.old text.new result }
{
    text[at] = b' ';
    put_digits(text, at + 1, n)
}
