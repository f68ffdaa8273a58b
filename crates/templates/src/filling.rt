// A template, filled with values: specs/Filling.antt says what its marks stand for.
ghost use Rattle.std.specs.Prelude.{◌≡◌, length, take, get_or};
ghost use Rattle.meaning.specs.Over.{over};
ghost use Rattle.templates.specs.Cut.{put_at, end_at};
ghost use Rattle.templates.specs.Filling.{next_value, next_place, after_bar, takes_value, is_bracket, after, piece_of};
ghost use Rattle.templates.specs.Filling.{shown_of, filled_of};

use crate::decimals::put_decimal;
use crate::floats::put_float;
use crate::puts::put_text;

// Behind a byte of a template.
#[derive(Clone, Copy)]
pub struct State {
    // How many bars are ahead of the part that is shown, 0 where it is: a count in the definitions too.
    pub ahead: u64,
    // The place of the next value.
    pub next: usize,
}

fn value_at(values: &[u64], at: usize) -> u64
    ensures { result ≡ get_or values.now at 0 }
{
    values.get(at).copied().unwrap_or(0)
}

#[tactic(auto, unfolding(crate::specs::Filling::next_place))]
fn next_place(values: &[u64], s: State) -> usize
    ensures { result ≡ next_place values.now s }
{
    let next = s.next;
    if next < values.len() {
        return next + 1;
    }
    next
}

#[tactic(auto, unfolding(crate::specs::Filling::after_bar))]
fn after_bar(ahead: u64) -> u64
    ensures { result ≡ after_bar ahead }
{
    if ahead == 0 {
        return u64::MAX;
    }
    ahead - 1
}

#[tactic(auto, unfolding(crate::specs::Filling::takes_value))]
fn takes_value(c: u8) -> bool
    ensures { result ≡ takes_value c }
{
    c == b'#' || c == b'~'
}

#[tactic(auto, unfolding(crate::specs::Filling::is_bracket))]
fn is_bracket(c: u8) -> bool
    ensures { result ≡ is_bracket c }
{
    c == b'{' || c == b'|' || c == b'}'
}

#[tactic(auto, unfolding(crate::specs::Filling::after))]
fn state_after(values: &[u64], s: State, c: u8) -> State
    ensures { result ≡ after values.now s c }
{
    let next = s.next;
    if c == b'{' {
        return State {
            ahead: value_at(values, next),
            next: next_place(values, s),
        };
    }
    if c == b'|' {
        return State {
            ahead: after_bar(s.ahead),
            next,
        };
    }
    if c == b'}' {
        return State { ahead: 0, next };
    }
    if takes_value(c) {
        return State {
            ahead: s.ahead,
            next: next_place(values, s),
        };
    }
    s
}

fn put_piece(out: &mut [u8], at: usize, c: u8, value: u64) -> usize
    ensures value { result ≡ end_at at (piece_of c value) (length out.old) }
    ensures out_after { out.new ≡ put_at at (piece_of c value) out.old }
{
    if c == b'#' {
        return put_decimal(out, at, value);
    }
    if c == b'~' {
        return put_float(out, at, value);
    }
    if is_bracket(c) {
        return at;
    }
    let byte = [c];
    put_text(out, at, &byte)
}

fn put_shown(out: &mut [u8], at: usize, values: &[u64], s: State, c: u8) -> usize
    ensures value { result ≡ end_at at (shown_of values.now s c) (length out.old) }
    ensures out_after { out.new ≡ put_at at (shown_of values.now s c) out.old }
{
    let next = s.next;
    if s.ahead != 0 {
        return at;
    }
    put_piece(out, at, c, value_at(values, next))
}

// The template with its values, from a place of the lent bytes on, as far as there is room. The answer is the place
// behind it: the end of the lent bytes says that not all of it may be there.
#[tactic(auto, unfolding(crate::specs::Filling::filled_of))]
pub fn fill(out: &mut [u8], at: usize, template: &[u8], values: &[u64]) -> usize
    ensures value { result ≡ end_at at (filled_of template.now values.now) (length out.old) }
    ensures out_after { out.new ≡ put_at at (filled_of template.now values.now) out.old }
{
    let mut s = State { ahead: 0, next: 0 };
    let mut end = at;
    for c in template {
        end = put_shown(out, end, values, s, *c);
        s = state_after(values, s, *c);
    }
    end
}
