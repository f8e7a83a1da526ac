// A program's input: the bytes of a reader, and their words, four bytes a word, low byte first.
#![tactic(auto)]

ghost use Rattle.std.specs.Prelude.{◌≡◌, ◌++◌, ◌+◌, ◌*◌, ◌≤◌, length, drop, IfOk};
ghost use Rattle.input.specs.Input.{word_at, first_words, are_words, words_after};

use codes::WORD_BYTES;
use std::io;
use std::io::Read;
use words::store;

// Word i.
fn word_at(bytes: &[u8], i: usize) -> u32
    requires { 4 * i + 4 ≤ length bytes.now }
    ensures { result ≡ word_at bytes.now i }
{
    let at = WORD_BYTES * i;
    u32::from_le_bytes([bytes[at], bytes[at + 1], bytes[at + 2], bytes[at + 3]])
}

// The first n words, at the beginning of an area.
fn copy_words(bytes: &[u8], n: usize, words: &mut [u32])
    requires { (4 * n ≤ length bytes.now) × (n ≤ length words.old) }
    ensures { words.new ≡ first_words bytes.now n ++ drop n words.old }
{
    for i in 0..n {
        store(words, i, word_at(bytes, i));
    }
}

// Writes the words of the input to the beginning of an area and answers true; false where the bytes are no words, or more than the area has,
// and then nothing is written.
pub fn take_words(bytes: &[u8], words: &mut [u32]) -> bool
    ensures value { result ≡ are_words bytes.now (length words.old) }
    ensures words_after { words.new ≡ words_after bytes.now words.old }
{
    if bytes.len() % WORD_BYTES != 0 {
        return false;
    }
    let n = bytes.len() / WORD_BYTES;
    if words.len() < n {
        return false;
    }
    copy_words(bytes, n, words);
    true
}

// The bytes that a reader has left, at the beginning of a buffer: how many, all of them or as many as the buffer holds.
pub fn read_bytes(from: &mut impl Read, bytes: &mut [u8]) -> io::Result<usize>
    ensures { IfOk result (λ n. n ≤ length bytes.old) }
{
    let mut n = 0;
    // A while: the step is the count that was read.
    while n < bytes.len() {
        let got = from.read(&mut bytes[n..])?;
        if got == 0 {
            break;
        }
        n += got;
    }
    Ok(n)
}
