// The parts that lines are made of: numbers, and keys with their numbers. Each call answers what stands in front and the bytes behind it.
ghost use Rattle.std.specs.Prelude.{◌≡◌};
ghost use Rattle.runfile.specs.Lines.{Small};
ghost use Rattle.runfile.specs.Parts.{as_taken, as_heads};
ghost use Rattle.runfile.specs.Read.{open-ended, digits_from, number, read_field, head_of};

// The fields n, a and f with which a command and a transfer begin, and the bytes behind them.
#[derive(Clone, Copy)]
pub struct Head<'a> {
    pub n: u32,
    pub a: u32,
    pub f: u32,
    pub rest: &'a [u8],
}

// The least number of eight digits.
const EIGHT_DIGITS: u32 = 10_000_000;

// A digit may follow the digits of v: none follows a leading zero, and none follows eight digits.
fn is_open_ended(v: u32) -> bool
    ensures { result ≡ open-ended v }
{
    0 < v && v < EIGHT_DIGITS
}

// Goes on with a number whose digits so far give first.
fn digits(first: u32, line: &[u8]) -> Option<(u32, &[u8])>
    requires { Small first }
    ensures { as_taken result ≡ digits_from first line.now }
{
    let mut v = first;
    let mut rest = line;
    while let Some((b, tail)) = rest.split_first()
        && b.is_ascii_digit()
    {
        if !is_open_ended(v) {
            return None;
        }
        v = v * 10 + u32::from(b - b'0');
        rest = tail;
    }
    Some((v, rest))
}

// The number in front.
fn number(line: &[u8]) -> Option<(u32, &[u8])>
    ensures { as_taken result ≡ number line.now }
{
    let (b, rest) = line.split_first()?;
    if b.is_ascii_digit() {
        digits(u32::from(b - b'0'), rest)
    } else {
        None
    }
}

// The number behind key, which is compared as a whole: `strip_prefix` is slower.
pub fn field<'a, const K: usize>(line: &'a [u8], key: &[u8; K]) -> Option<(u32, &'a [u8])>
    ensures { as_taken result ≡ read_field key.now line.now }
{
    let (front, rest) = line.split_first_chunk::<K>()?;
    if front == key { number(rest) } else { None }
}

// The fields n, a and f, the first behind key.
pub fn head_of<'a, const K: usize>(line: &'a [u8], key: &[u8; K]) -> Option<Head<'a>>
    ensures { as_heads result ≡ head_of key.now line.now }
{
    let (n, rest) = field(line, key)?;
    let (a, rest) = field(rest, b" a=")?;
    let (f, rest) = field(rest, b" f=")?;
    Some(Head { n, a, f, rest })
}
