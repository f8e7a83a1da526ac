// Bytes put into a buffer at a position; each function gives the position after them, which stays at the buffer's end once that is reached.
ghost use Rattle.std.specs.Prelude.{◌≡◌, [], ◌∷◌, min, length, replicate};
ghost use Rattle.printer.specs.Buffer.{Put};

// Every byte zero.
pub fn clear(out: &mut [u8])
    ensures { out.new ≡ replicate (length out.old) 0 }
{
    out.fill(0);
}

pub fn put_byte(out: &mut [u8], at: usize, byte: u8) -> usize
    ensures { Put (byte ∷ []) out.old at out.new result }
{
    if at < out.len() {
        out[at] = byte;
        return at + 1;
    }
    out.len()
}

// The position, or the buffer's end where that comes first.
pub fn within(out: &[u8], at: usize) -> usize
    ensures { result ≡ min at (length out.now) }
{
    if at < out.len() { at } else { out.len() }
}

pub fn put_text(out: &mut [u8], at: usize, text: &[u8]) -> usize
    ensures { Put text.now out.old at out.new result }
{
    let mut end = within(out, at);
    for byte in text {
        end = put_byte(out, end, *byte);
    }
    end
}
