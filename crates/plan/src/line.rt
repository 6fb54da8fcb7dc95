// One line of a plan: its letter, its fields, its numbers.
ghost use Rattle.std.specs.Prelude.{◌≡◌, ◌==◌, option_copied, position};
ghost use Rattle.plan.specs.Text.{split, parted, read_number};
ghost use Rattle.plan.specs.Lines.{exactly, numbers, line_of};

use server::Server;
use table::Task;

// What an A line says: the request `id` of `work` ticks is presented before tick `tick`.
#[derive(Debug, Clone, Copy, PartialEq, Eq)]
pub struct Arrival {
    pub tick: u32,
    pub id: u32,
    pub work: u32,
}

// What a line says, by its letter.
#[derive(Debug, Clone, Copy, PartialEq, Eq)]
pub enum Line {
    Task(Task),
    Server(Server),
    Arrival(Arrival),
    Run(u32),
}

// "R,ticks, at most 1,000,000"
pub const MAX_TICKS: u32 = 1_000_000;

// The one rule for a number, of every field.
#[tactic(auto, using(crate::proofs::Numbers::starts), unfolding(crate::specs::Text::read_number, crate::specs::Text::number_tests))]
fn read_number(field: &[u8]) -> Option<u32>
    ensures { result ≡ read_number field.now }
{
    if !(1..=text::MAX_DIGITS).contains(&field.len()) {
        return None;
    }
    let mut value: u64 = 0;
    for byte in field {
        if !byte.is_ascii_digit() {
            return None;
        }
        value = value * 10 + u64::from(*byte - b'0');
    }
    u32::try_from(value).ok()
}

// The place of the first `byte` of a text.
pub(crate) fn find_byte(text: &[u8], byte: u8) -> Option<usize>
    ensures { result ≡ position (λ x. x == byte) text.now }
{
    text.iter().position(|other| *other == byte)
}

// The first field, and the fields behind the comma that ends it.
fn cut(fields: &[u8]) -> (&[u8], Option<&[u8]>)
    ensures { split 44 fields.now ≡ parted 44 result.0.now (option_copied result.1) }
{
    match find_byte(fields, b',') {
        Some(place) => (&fields[..place], Some(&fields[place + 1..])),
        None => (fields, None),
    }
}

// The numbers of fields parted by commas, where there are exactly `N`.
fn read_numbers<const N: usize>(fields: &[u8]) -> Option<[u32; N]>
    ensures { result ≡ exactly N (numbers fields.now) }
{
    let mut numbers = [0; N];
    let mut rest = Some(fields);
    for number in &mut numbers {
        let (field, others) = cut(rest?);
        *number = read_number(field)?;
        rest = others;
    }
    if rest.is_some() {
        return None;
    }
    Some(numbers)
}

// "each line is parsed as the stretch of the plan from its own first byte", without its line feed
pub fn parse(line: &[u8]) -> Option<Line>
    ensures { result ≡ line_of line.now }
{
    let [letter, b',', fields @ ..] = line else {
        return None;
    };
    match *letter {
        b'T' => {
            let [phase, period, exec, deadline] = read_numbers::<4>(fields)?;
            Some(Line::Task(Task {
                phase,
                period,
                exec,
                deadline,
            }))
        }
        b'S' => {
            let [kind, place, period, budget] = read_numbers::<4>(fields)?;
            Some(Line::Server(Server {
                kind,
                place,
                period,
                budget,
            }))
        }
        b'A' => {
            let [tick, id, work] = read_numbers::<3>(fields)?;
            Some(Line::Arrival(Arrival { tick, id, work }))
        }
        b'R' => {
            let [ticks] = read_numbers::<1>(fields)?;
            (ticks <= MAX_TICKS).then_some(Line::Run(ticks))
        }
        _ => None,
    }
}
