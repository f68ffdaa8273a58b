// The numbers of a file, in groups of seven bits: low group first, the top bit set on all but the last, shortest form
// only.
ghost use Rattle.std.specs.Prelude.{◌≡◌, ◌≤◌, ◌^◌, length};
ghost use Rattle.histogram.specs.Number.{number_bytes, between, take_byte_of, number_at_of, number_says};

// What a byte makes of a number: its value so far, with another group to come; the number; or nothing that its range
// allows.
#[derive(Clone, Copy)]
pub enum Taken {
    More(u64),
    Whole(u64),
    Wrong,
}

// A number and the place behind it.
#[derive(Clone, Copy)]
pub struct Found {
    pub value: u64,
    pub next: usize,
}

// What a tenth group counts. A range that ends below has none, and of any other only a 1 fits.
const TOP: u64 = 9223372036854775808;

fn tenth_byte(least: u64, most: u64, value: u64, byte: u8) -> Taken
    requires { value ≤ most }
    ensures { result ≡ take_byte_of (between least most) value 9 byte }
{
    if most < TOP {
        return Taken::Wrong;
    }
    if byte != 1 {
        return Taken::Wrong;
    }
    if most - value < TOP {
        return Taken::Wrong;
    }
    if value + TOP < least {
        return Taken::Wrong;
    }
    Taken::Whole(value + TOP)
}

// One byte more of a number from `least` to `most`, behind groups that add up to `value`; its own group counts
// `weight`.
#[tactic(auto, using(crate::proofs::Takes::laws))]
fn take_byte(least: u64, most: u64, value: u64, groups: usize, weight: u64, byte: u8) -> Taken
    requires { (weight ≡ 128 ^ groups) × (value ≤ most) }
    ensures { result ≡ take_byte_of (between least most) value groups byte }
{
    if groups > 8 {
        return tenth_byte(least, most, value, byte);
    }
    let put = u64::from(byte % 128) * weight;
    if most - value < put {
        return Taken::Wrong;
    }
    let sum = value + put;
    if byte < 128 {
        if sum < least {
            return Taken::Wrong;
        }
        if byte > 0 {
            return Taken::Whole(sum);
        }
        if groups == 0 {
            return Taken::Whole(sum);
        }
        return Taken::Wrong;
    }
    if most - sum < weight * 128 {
        return Taken::Wrong;
    }
    Taken::More(sum)
}

// The number from `least` to `most` at a place of a file. None is one at fault, whose place is where it starts.
pub fn number_at(file: &[u8], start: usize, least: u64, most: u64) -> Option<Found>
    ensures { number_says start result ≡ number_at_of (between least most) file.now start }
{
    let mut value: u64 = 0;
    let mut weight: u64 = 1;
    // By the index: a range from past the file's end is empty, where a slice of the file from there would panic.
    for i in start..file.len() {
        let taken = take_byte(least, most, value, i - start, weight, file[i]);
        let at = i + 1;
        match taken {
            Taken::More(so_far) => {
                value = so_far;
                weight *= 128;
            }
            Taken::Whole(n) => return Some(Found { value: n, next: at }),
            Taken::Wrong => return None,
        }
    }
    None
}

// How many bytes a number takes: one more for each power of 128 that it reaches.
pub fn number_size(n: u64) -> usize
    ensures { result ≡ length (number_bytes n) }
{
    if n < 128 {
        return 1;
    }
    if n < 16384 {
        return 2;
    }
    if n < 2097152 {
        return 3;
    }
    if n < 268435456 {
        return 4;
    }
    if n < 34359738368 {
        return 5;
    }
    if n < 4398046511104 {
        return 6;
    }
    if n < 562949953421312 {
        return 7;
    }
    if n < 72057594037927936 {
        return 8;
    }
    if n < TOP {
        return 9;
    }
    10
}
