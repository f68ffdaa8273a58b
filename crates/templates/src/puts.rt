// Bytes put into lent ones from a place on, as far as there is room.
ghost use Rattle.std.specs.Prelude.{◌≡◌, ◌≤◌, length};
ghost use Rattle.templates.specs.Cut.{put_at, end_at};

// The answer is the place behind what was put.
pub(crate) fn put_text(out: &mut [u8], at: usize, text: &[u8]) -> usize
    ensures value { result ≡ end_at at text.now (length out.old) }
    ensures out_after { out.new ≡ put_at at text.now out.old }
{
    let mut end = at;
    // No copy_from_slice: `put_at` and `end_at` go byte by byte, and answer a place behind the end as it is.
    for byte in text {
        if end >= out.len() {
            return end;
        }
        out[end] = *byte;
        end += 1;
    }
    end
}
