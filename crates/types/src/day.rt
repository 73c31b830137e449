// Days: whether the day of a date exists. Inner: the callers hold that it is in the form.
ghost use Rattle.std.specs.Prelude.{◌+◌, ◌≤◌, true, ◌≡◌, length};
ghost use Rattle.types.specs.Types.{day_exists, days_in, digits, is_dtm, is_leap, two_at};

use text::is_digit;

// How many digits a date has that names a day: YYYYMMDD.
const DATE_SIZE: usize = 8;

// Whether a year has a 29th of February.
fn is_leap(year: u16) -> bool
    ensures { result ≡ is_leap year }
{
    (year % 4 == 0) & (!(year % 100 == 0) | (year % 400 == 0))
}

// How many days a month has in that year.
fn days_in(year: u16, month: u16) -> u16
    ensures { result ≡ days_in year month }
{
    match month {
        2 => {
            if is_leap(year) {
                return 29;
            }
            28
        }
        4 | 6 | 9 | 11 => 30,
        _ => 31,
    }
}

// The number that the two digits from `at` on write.
fn two_at(t: &[u8], at: usize) -> u16
    requires { at + 2 ≤ length (digits t.now) }
    ensures { (result ≡ two_at at t.now) × (result ≤ 99) }
{
    ((t[at] - b'0') * 10 + (t[at + 1] - b'0')) as u16
}

// Whether the day of a DTM exists, by its year and month: of any DTM of eight bytes or more, so that a zone may stand where month or day would. Then there is
// no day.
fn is_day_of_month(t: &[u8]) -> bool
    requires { (is_dtm t.now ≡ true) × (8 ≤ length t.now) }
    ensures { result ≡ day_exists t.now }
{
    if !(is_digit(t[4]) & is_digit(t[6])) {
        return true;
    }
    let year = two_at(t, 0) * 100 + two_at(t, 2);
    two_at(t, 6) <= days_in(year, two_at(t, 4))
}

// The same of any DTM. Every month has the days up to the 28th, so that most dates need no more than a look at two bytes.
pub fn day_exists(t: &[u8]) -> bool
    requires { is_dtm t.now ≡ true }
    ensures { result ≡ day_exists t.now }
{
    if t.len() < DATE_SIZE {
        return true;
    }
    if (t[6] < b'2') | ((t[6] == b'2') & (t[7] <= b'8')) {
        return true;
    }
    is_day_of_month(t)
}
