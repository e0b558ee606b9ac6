//! The three kinds of line. Places and answers come as numbers, since a report shows numbers and this crate knows no enum behind them.
ghost use Rattle.std.specs.Prelude.{◌≡◌, ◌%◌};
ghost use Rattle.report.specs.Digits.{number_at};
ghost use Rattle.report.specs.Lines.{event_line, end_line, refusal_line};

use crate::digits::digits;

/// The line of an event: its letter, station in three digits, place in two and answer in two.
pub fn event_line(letter: u8, station: u8, place: u8, answer: u8) -> [u8; 12]
    ensures line { result ≡ event_line letter station place answer }
    ensures station { number_at result 2 3 ≡ station }
    ensures place { number_at result 6 2 ≡ place % 100 }
    ensures answer { number_at result 9 2 ≡ answer % 100 }
{
    let mut line = *b". ... .. ..\n";
    line[0] = letter;
    line[2..5].copy_from_slice(&digits::<3>(u64::from(station)));
    line[6..8].copy_from_slice(&digits::<2>(u64::from(place)));
    line[9..11].copy_from_slice(&digits::<2>(u64::from(answer)));
    line
}

/// The last line of a report: grants, ends and rounds, each in five digits.
pub fn end_line(grants: u64, ends: u64, rounds: u64) -> [u8; 20]
    ensures line { result ≡ end_line grants ends rounds }
    ensures grants { number_at result 2 5 ≡ grants % 100000 }
    ensures ends { number_at result 8 5 ≡ ends % 100000 }
    ensures rounds { number_at result 14 5 ≡ rounds % 100000 }
{
    let mut line = *b"E ..... ..... .....\n";
    line[2..7].copy_from_slice(&digits::<5>(grants));
    line[8..13].copy_from_slice(&digits::<5>(ends));
    line[14..19].copy_from_slice(&digits::<5>(rounds));
    line
}

/// The only line of a refused schedule: the number of the refusal in two digits and its index in five.
pub fn refusal_line(number: u8, index: usize) -> [u8; 11]
    ensures line { result ≡ refusal_line number index }
    ensures number { number_at result 2 2 ≡ number % 100 }
    ensures index { number_at result 5 5 ≡ index % 100000 }
{
    let mut line = *b"R .. .....\n";
    line[2..4].copy_from_slice(&digits::<2>(u64::from(number)));
    line[5..10].copy_from_slice(&digits::<5>(index as u64));
    line
}
