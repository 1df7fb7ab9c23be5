// Text in a buffer of its own.
ghost use Rattle.std.specs.Prelude.{◌≡◌, ◌+◌, ◌≤◌, ◌++◌, [], length, replicate};
ghost use Rattle.printing.specs.Text.{Adds, decimal_of, signed_of, refusal_text};

use selection::Refusal;
use std::marker::Model;

// A text of at most N bytes. A contract sees the text and the bytes behind it, which stay as they were.
#[derive(Drop)]
pub struct Text<const N: usize> {
    bytes: [u8; N],
    len: usize,
}

impl<const N: usize> Model for Text<N> {
    ghost use Rattle.std.specs.Prelude.{◌≤◌, take, drop};
    ghost use Rattle.printing.specs.Text.{Filled};

    ghost Value = { Filled };

    ghost view = { λ t. record { text = take t.len t.bytes; rest = drop t.len t.bytes } };

    ghost invariant = { λ t. t.len ≤ N };
}

impl<const N: usize> Text<N> {
    // No text, before N zeros.
    pub fn new() -> Self
        ensures text { result.text ≡ [] }
        ensures rest { result.rest ≡ replicate N 0 }
        ensures room { N ≤ length result.rest }
    {
        Text {
            bytes: [0; N],
            len: 0,
        }
    }

    pub fn as_bytes(&self) -> &[u8]
        ensures { result.now ≡ self.now.text }
    {
        &self.bytes[..self.len]
    }

    pub fn push(&mut self, more: &[u8])
        requires { length more.now ≤ length self.old.rest }
        ensures { Adds self.old more.now (length more.now) self.new }
    {
        let start = self.len;
        let end = start + more.len();
        let bytes = &mut self.bytes[..];
        bytes[start..end].copy_from_slice(more);
        self.len = end;
    }

    // A number in decimal, of at most 20 digits, and what follows it.
    pub fn push_number(&mut self, number: u64, end: &[u8])
        requires { 20 + length end.now ≤ length self.old.rest }
        ensures { Adds self.old (decimal_of number ++ end.now) (20 + length end.now) self.new }
    {
        let mut digits = [0u8; 20];
        let count = io::decimal(number, &mut digits);
        self.push(&digits[..count]);
        self.push(end);
    }

    // A signed number in decimal, and what follows it.
    pub fn push_signed(&mut self, number: i64, end: &[u8])
        requires { 21 + length end.now ≤ length self.old.rest }
        ensures { Adds self.old (signed_of number ++ end.now) (21 + length end.now) self.new }
    {
        if number < 0 {
            self.push(b"-");
        }
        self.push_number(number.unsigned_abs(), end);
    }

    // The specification's two lines for a refusal: its number and its place.
    #[tactic(auto, using(crate::proofs::Texts::pushed_pushed))]
    pub fn push_refusal(&mut self, refusal: Refusal)
        requires { 56 ≤ length self.old.rest }
        ensures { Adds self.old (refusal_text refusal) 56 self.new }
    {
        self.push(b"refusal place\n");
        self.push_number(refusal.number, b" ");
        self.push_number(refusal.place, b"\n");
    }
}
